use crate::calls::{EXPAND, call};
use pyc_cli::Status;
use std::alloc::Global;
use std::process::Abort;
use std::test::Fail;

/// Sources of one form or a few, in one file, and the lines that they expand to.
fn expand(rt: &impl Abort, alloc: Global, sources: &[&str], lines: &[&str]) -> Result<(), Fail> {
    let mut source = String::new(alloc);
    for part in sources {
        source.push_str(part)?;
        source.push_str(" ")?;
    }
    let mut text = String::new(alloc);
    for line in lines {
        text.push_str(line)?;
        text.push_str("\n")?;
    }
    let left = call(alloc, &EXPAND, source.as_bytes(), b"", [0, 0, 0, 0])?;
    assert_eq!(rt; left.err.bytes(), b"".as_slice());
    assert_eq!(rt; left.status, Status::Done);
    assert_eq!(rt; left.out.bytes(), text.as_bytes());
    Ok(())
}

#[test]
fn conditionals_expand(rt: HostRuntime) -> Result<(), Fail> {
    let sources = [
        "(and)",
        "(and 1)",
        "(and 1 2 3)",
        "(or)",
        "(or 1)",
        "(or 1 2)",
        "(cond)",
        "(cond (1))",
        "(cond (1 2 3))",
        "(cond (1) (2 3))",
        "(when 1 2 3)",
        "(when 1)",
        "(unless 1 2)",
    ];
    let lines = [
        "(quote T)",
        "(quote 1)",
        "(if (quote 1) (if (quote 2) (quote 3) (quote NIL)) (quote NIL))",
        "(quote NIL)",
        "(quote 1)",
        "(let ((G1.1 (quote 1))) (if G1.1 G1.1 (quote 2)))",
        "(quote NIL)",
        "(let ((G2.1 (quote 1))) (if G2.1 G2.1 (quote NIL)))",
        "(if (quote 1) (progn (quote 2) (quote 3)) (quote NIL))",
        "(let ((G3.1 (quote 1))) (if G3.1 G3.1 (if (quote 2) (quote 3) (quote NIL))))",
        "(if (quote 1) (progn (quote 2) (quote 3)) (quote NIL))",
        "(if (quote 1) (quote NIL) (quote NIL))",
        "(if (quote 1) (quote NIL) (quote 2))",
    ];
    expand(&rt, rt.alloc(), &sources, &lines)
}

#[test]
fn cases_expand(rt: HostRuntime) -> Result<(), Fail> {
    let sources = [
        "(case 1)",
        "(case 1 (1 2))",
        "(case 1 ((1 2) 3) (t 4))",
        "(case 1 (nil 2) (otherwise 3))",
        "(ecase 1 (a 2) ((b c) 3))",
        "(ecase 1)",
        "(typecase 1 (integer 2) (t 3))",
        "(typecase 1 (fixnum 2))",
        "(etypecase 1 (integer 2) (symbol 3))",
    ];
    let lines = [
        "(let ((G1.1 (quote 1))) (quote NIL))",
        "(let ((G2.1 (quote 1))) (if (is (MEMBER 1) G2.1) (quote 2) (quote NIL)))",
        "(let ((G3.1 (quote 1))) (if (is (MEMBER 1 2) G3.1) (quote 3) (quote 4)))",
        "(let ((G4.1 (quote 1))) (if (is (MEMBER) G4.1) (quote 2) (quote 3)))",
        "(let ((G5.1 (quote 1))) (if (is (MEMBER A) G5.1) (quote 2) (if (is (MEMBER B C) G5.1) (quote 3) (the (MEMBER A B C) G5.1))))",
        "(let ((G6.1 (quote 1))) (the (MEMBER) G6.1))",
        "(let ((G7.1 (quote 1))) (if (is INTEGER G7.1) (quote 2) (quote 3)))",
        "(let ((G8.1 (quote 1))) (if (is FIXNUM G8.1) (quote 2) (quote NIL)))",
        "(let ((G9.1 (quote 1))) (if (is INTEGER G9.1) (quote 2) (if (is SYMBOL G9.1) (quote 3) (the (OR INTEGER SYMBOL) G9.1))))",
    ];
    expand(&rt, rt.alloc(), &sources, &lines)
}

#[test]
fn loops_expand(rt: HostRuntime) -> Result<(), Fail> {
    let sources = [
        "(loop (return 1))",
        "(do ((i 0 (+ i 1)) (j 1)) ((> i 3) j) i)",
        "(do* ((i 0 (+ i 1)) (j i)) ((> i 3)))",
        "(dotimes (i 3) i)",
        "(dotimes (i 3 i))",
        "(dolist (x (list 1) 2) x)",
        "(dolist (x nil))",
        "(block nil (return))",
        "(block nil (return 1))",
        "(prog (a (b 1)) x (go x))",
        "(prog* ((a 1) (b a)) b)",
    ];
    let lines = [
        "(block NIL.1 (tagbody G1.2 (return NIL.1 (quote 1)) (go G1.2)))",
        "(block NIL.1 (let ((I.2 (quote 0)) (J.3 (quote 1))) (tagbody G2.4 (if (> I.2 (quote 3)) (return NIL.1 J.3) (quote NIL)) I.5 (let ((G3.6 (+ I.2 (quote 1)))) (progn (set I.2 G3.6) (quote NIL))) (go G2.4))))",
        "(block NIL.1 (let ((I.2 (quote 0))) (let ((J.3 I.2)) (tagbody G4.4 (if (> I.2 (quote 3)) (return NIL.1 (quote NIL)) (quote NIL)) (set I.2 (+ I.2 (quote 1))) (go G4.4)))))",
        "(block NIL.1 (let ((I.2 (quote 0)) (G5.3 (the INTEGER (quote 3)))) (tagbody G6.4 (if (>= I.2 G5.3) (return NIL.1 (quote NIL)) (quote NIL)) I.5 (set I.2 (+ I.2 (quote 1))) (go G6.4))))",
        "(block NIL.1 (let ((I.2 (quote 0)) (G7.3 (the INTEGER (quote 3)))) (tagbody G8.4 (if (>= I.2 G7.3) (return NIL.1 I.2) (quote NIL)) (set I.2 (+ I.2 (quote 1))) (go G8.4))))",
        "(block NIL.1 (let ((G9.2 (the LIST (LIST (quote 1))))) (tagbody G10.3 (if G9.2 (quote NIL) (return NIL.1 (let ((X.4 (quote NIL))) (quote 2)))) (let ((X.5 (CAR G9.2))) (tagbody X.6)) (set G9.2 (the LIST (CDR G9.2))) (go G10.3))))",
        "(block NIL.1 (let ((G11.2 (the LIST (quote NIL)))) (tagbody G12.3 (if G11.2 (quote NIL) (return NIL.1 (let ((X.4 (quote NIL))) (quote NIL)))) (let ((X.5 (CAR G11.2))) (tagbody)) (set G11.2 (the LIST (CDR G11.2))) (go G12.3))))",
        "(block NIL.1 (return NIL.1 (quote NIL)))",
        "(block NIL.1 (return NIL.1 (quote 1)))",
        "(block NIL.1 (let ((A.2 (quote NIL)) (B.3 (quote 1))) (tagbody X.4 (go X.4))))",
        "(block NIL.1 (let ((A.2 (quote 1))) (let ((B.3 A.2)) (tagbody B.4))))",
    ];
    expand(&rt, rt.alloc(), &sources, &lines)
}

#[test]
fn values_expand(rt: HostRuntime) -> Result<(), Fail> {
    let sources = [
        "(prog1 1 2 3)",
        "(prog2 1 2 3)",
        "(multiple-value-bind (a b) (values 1 2) a)",
        "(multiple-value-list (values 1 2))",
        "(defvar *a*) (defvar *b*) (multiple-value-setq (*a* *b*) (values 1 2))",
        "(multiple-value-setq () (values 1 2))",
        "(nth-value 1 (values 1 2))",
    ];
    let lines = [
        "(let ((G1.1 (quote 1))) (progn (progn (quote 2) (quote 3)) G1.1))",
        "(progn (quote 1) (let ((G2.1 (quote 2))) (progn (quote 3) G2.1)))",
        "(mvcall (lambda ((opt A.1 (quote NIL)) (opt B.2 (quote NIL)) (rest G3.3)) A.1) (values (quote 1) (quote 2)))",
        "(mvcall (funglobal LIST) (values (quote 1) (quote 2)))",
        "(quote *A*)",
        "(quote *B*)",
        "(mvcall (lambda ((opt G4.1 (quote NIL)) (opt G5.2 (quote NIL)) (rest G6.3)) (progn (progn (setglobal *A* G4.1) (setglobal *B* G5.2)) G4.1)) (values (quote 1) (quote 2)))",
        "(let ((G7.1 (values (quote 1) (quote 2)))) (progn (quote NIL) G7.1))",
        "(callglobal NTH (quote 1) (mvcall (funglobal LIST) (values (quote 1) (quote 2))))",
    ];
    expand(&rt, rt.alloc(), &sources, &lines)
}

#[test]
fn places_expand(rt: HostRuntime) -> Result<(), Fail> {
    let sources = [
        "(let ((a 1)) (setf a 2))",
        "(setf)",
        "(let ((a 1) (b 2)) (setf a b b a))",
        "(let ((a (cons 1 2))) (setf (car a) 3))",
        "(let ((a (cons 1 2))) (setf (rest a) 3))",
        "(let ((a (list 1))) (setf (nth 0 a) 2))",
        "(let ((a (vector 1))) (setf (svref a 0) 2))",
        "(let ((a (vector 1))) (setf (aref a 0) 2))",
        "(setf (symbol-value 'a) 1)",
        "(let ((s (make-string 1))) (setf (schar s 0) #\\a (char s 0) #\\b))",
        "(let ((a 1)) (incf a))",
        "(let ((a 1)) (decf a 2))",
        "(let ((a (list 1))) (incf (first a) 2))",
        "(let ((a nil)) (push 1 a))",
        "(let ((a (list nil))) (push 1 (car a)))",
        "(let ((a (list 1))) (pop a))",
        "(let ((a (list (list 1)))) (pop (car a)))",
        "(let ((a 1) (b 2)) (psetq a b b a))",
    ];
    let lines = [
        "(let ((A.1 (quote 1))) (set A.1 (quote 2)))",
        "(quote NIL)",
        "(let ((A.1 (quote 1)) (B.2 (quote 2))) (progn (set A.1 B.2) (set B.2 A.1)))",
        "(let ((A.1 (CONS (quote 1) (quote 2)))) (let ((G1.2 A.1) (G2.3 (quote 3))) (progn (RPLACA G1.2 G2.3) G2.3)))",
        "(let ((A.1 (CONS (quote 1) (quote 2)))) (let ((G3.2 A.1) (G4.3 (quote 3))) (progn (RPLACD G3.2 G4.3) G4.3)))",
        "(let ((A.1 (LIST (quote 1)))) (let ((G5.2 (quote 0)) (G6.3 A.1) (G7.4 (quote 2))) (progn (callglobal %NTHSET G5.2 G6.3 G7.4) G7.4)))",
        "(let ((A.1 (callglobal VECTOR (quote 1)))) (let ((G8.2 A.1) (G9.3 (quote 0)) (G10.4 (quote 2))) (progn (%SVSET G8.2 G9.3 G10.4) G10.4)))",
        "(let ((A.1 (callglobal VECTOR (quote 1)))) (let ((G11.2 A.1) (G12.3 (quote 0)) (G13.4 (quote 2))) (progn (callglobal %ASET G11.2 G12.3 G13.4) G13.4)))",
        "(let ((G14.1 (quote A)) (G15.2 (quote 1))) (progn (SET G14.1 G15.2) G15.2))",
        "(let ((S.1 (callglobal MAKE-STRING (quote 1)))) (progn (let ((G16.2 S.1) (G17.3 (quote 0)) (G18.4 (quote #\\a))) (progn (%SCHARSET G16.2 G17.3 G18.4) G18.4)) (let ((G19.5 S.1) (G20.6 (quote 0)) (G21.7 (quote #\\b))) (progn (%SCHARSET G19.5 G20.6 G21.7) G21.7))))",
        "(let ((A.1 (quote 1))) (set A.1 (+ A.1 (quote 1))))",
        "(let ((A.1 (quote 1))) (set A.1 (- A.1 (quote 2))))",
        "(let ((A.1 (LIST (quote 1)))) (let ((G22.2 A.1) (G23.3 (quote 2))) (let ((G24.4 (+ (callglobal FIRST G22.2) G23.3))) (progn (RPLACA G22.2 G24.4) G24.4))))",
        "(let ((A.1 (quote NIL))) (set A.1 (CONS (quote 1) A.1)))",
        "(let ((A.1 (LIST (quote NIL)))) (let ((G25.2 (quote 1)) (G26.3 A.1)) (let ((G27.4 (CONS G25.2 (CAR G26.3)))) (progn (RPLACA G26.3 G27.4) G27.4))))",
        "(let ((A.1 (LIST (quote 1)))) (let ((G28.2 A.1)) (progn (set A.1 (CDR G28.2)) (CAR G28.2))))",
        "(let ((A.1 (LIST (LIST (quote 1))))) (let ((G29.2 A.1)) (let ((G30.3 (CAR G29.2))) (progn (RPLACA G29.2 (CDR G30.3)) (CAR G30.3)))))",
        "(let ((A.1 (quote 1)) (B.2 (quote 2))) (let ((G31.3 B.2) (G32.4 A.1)) (progn (progn (set A.1 G31.3) (set B.2 G32.4)) (quote NIL))))",
    ];
    expand(&rt, rt.alloc(), &sources, &lines)
}

#[test]
fn definitions_expand(rt: HostRuntime) -> Result<(), Fail> {
    let sources = [
        "(defun f (x) x)",
        "(defun f (x) \"d\" x)",
        "(defun f () \"d\")",
        "(defun f (x) (declare (fixnum x)) (return-from f x))",
        "(defvar a)",
        "(defvar a 1)",
        "(defparameter a 1)",
        "(defconstant a 1)",
        "(declaim (special a))",
        "(in-package cl-user)",
        "(lambda (x) x)",
        "(function car)",
        "#'(lambda (&optional (x 1 s) &rest r) (list x s r))",
        "(funcall (lambda (&key a (b 1) (c 2 s)) (list a b c s)) :a 1)",
        "(lambda (a &aux (b a)) b)",
        "((lambda (x) x) 1)",
        "((lambda (x &optional y) x) 1)",
    ];
    let lines = [
        "(progn (setfun F (labels ((F.1 (lambda (X.2) (block F.3 X.2)))) (fun F.1))) (quote F))",
        "(progn (setfun F (labels ((F.1 (lambda (X.2) (block F.3 X.2)))) (fun F.1))) (quote F))",
        "(progn (setfun F (labels ((F.1 (lambda () (block F.2 (quote \"d\"))))) (fun F.1))) (quote F))",
        "(progn (setfun F (labels ((F.1 (lambda ((check FIXNUM X.2)) (block F.3 (return F.3 X.2))))) (fun F.1))) (quote F))",
        "(quote A)",
        "(progn (if (BOUNDP (quote A)) (quote NIL) (setglobal A (quote 1))) (quote A))",
        "(progn (setglobal A (quote 1)) (quote A))",
        "(progn (setglobal A (quote 1)) (quote A))",
        "(quote NIL)",
        "(quote NIL)",
        "(lambda (X.1) X.1)",
        "(funglobal CAR)",
        "(lambda ((opt X.1 (quote 1) S.2) (rest R.3)) (LIST X.1 S.2 R.3))",
        "(funcall (lambda ((rest G1.1)) (if (callglobal %KEYP G1.1 (quote (:A :B :C))) (let (((special A) (if (callglobal %KEY G1.1 (quote :A)) (CAR (callglobal %KEY G1.1 (quote :A))) (quote NIL)))) (let ((B.2 (if (callglobal %KEY G1.1 (quote :B)) (CAR (callglobal %KEY G1.1 (quote :B))) (quote 1)))) (let ((C.3 (if (callglobal %KEY G1.1 (quote :C)) (CAR (callglobal %KEY G1.1 (quote :C))) (quote 2)))) (let ((S.4 (if (callglobal %KEY G1.1 (quote :C)) (quote T) (quote NIL)))) (LIST (global A) B.2 C.3 S.4))))) (funcall (lambda () (quote NIL)) G1.1))) (quote :A) (quote 1))",
        "(lambda ((special A)) (let ((B.1 (global A))) B.1))",
        "(let ((X.1 (quote 1))) X.1)",
        "(funcall (lambda (X.1 (opt Y.2 (quote NIL))) X.1) (quote 1))",
    ];
    expand(&rt, rt.alloc(), &sources, &lines)
}

#[test]
fn quasiquotes_expand(rt: HostRuntime) -> Result<(), Fail> {
    let sources = [
        "`a",
        "`(a b)",
        "`(a ,(car nil) ,@(cdr nil) b)",
        "`(a . ,(car nil))",
    ];
    let lines = [
        "(quote A)",
        "(CONS (quote A) (CONS (quote B) (quote NIL)))",
        "(CONS (quote A) (CONS (CAR (quote NIL)) (callglobal %APPEND (CDR (quote NIL)) (CONS (quote B) (quote NIL)))))",
        "(CONS (quote A) (CAR (quote NIL)))",
    ];
    expand(&rt, rt.alloc(), &sources, &lines)
}

#[test]
fn direct_expand(rt: HostRuntime) -> Result<(), Fail> {
    let sources = [
        "(+)",
        "(+ 1)",
        "(+ 1 2 3)",
        "(*)",
        "(* 2)",
        "(logand)",
        "(logior)",
        "(logxor)",
        "(logxor 1 2 3)",
        "(- 1)",
        "(- 1 2 3)",
        "(1+ 1)",
        "(1- 1)",
        "(truncate 5)",
        "(floor 5 2)",
        "(read-char)",
        "(read-char nil)",
        "(read-char nil nil 1)",
        "(error \"e\" 1)",
        "(not 1)",
        "(stringp 1)",
        "(simple-vector-p 1)",
        "(typep 1 'fixnum)",
        "(eql 1 2)",
        "(char \"a\" 0)",
        "(= 1 2 3)",
        "(cons 1)",
    ];
    let lines = [
        "(quote 0)",
        "(the INTEGER (quote 1))",
        "(+ (+ (quote 1) (quote 2)) (quote 3))",
        "(quote 1)",
        "(the INTEGER (quote 2))",
        "(quote -1)",
        "(quote 0)",
        "(quote 0)",
        "(LOGXOR (LOGXOR (quote 1) (quote 2)) (quote 3))",
        "(- (quote 0) (quote 1))",
        "(- (- (quote 1) (quote 2)) (quote 3))",
        "(+ (quote 1) (quote 1))",
        "(- (quote 1) (quote 1))",
        "(TRUNCATE (quote 5) (quote 1))",
        "(FLOOR (quote 5) (quote 2))",
        "(READ-CHAR (quote NIL) (quote T) (quote NIL))",
        "(READ-CHAR (quote NIL) (quote T) (quote NIL))",
        "(READ-CHAR (quote NIL) (quote NIL) (quote 1))",
        "(%ERROR (quote \"e\") (LIST (quote 1)))",
        "(is NULL (quote 1))",
        "(is STRING (quote 1))",
        "(is SIMPLE-VECTOR (quote 1))",
        "(is FIXNUM (quote 1))",
        "(EQ (quote 1) (quote 2))",
        "(SCHAR (quote \"a\") (quote 0))",
        "(callglobal = (quote 1) (quote 2) (quote 3))",
        "(callglobal CONS (quote 1))",
    ];
    expand(&rt, rt.alloc(), &sources, &lines)
}

#[test]
fn operators_expand(rt: HostRuntime) -> Result<(), Fail> {
    let sources = [
        "(quote a)",
        "(if 1 2)",
        "(if 1 2 3)",
        "(progn)",
        "(progn 1)",
        "(progn 1 2)",
        "(let () 1)",
        "(let (a (b) (c 1)) a)",
        "(let* ((a 1) (b a)) (declare (fixnum a b)) b)",
        "(flet ((f (x) x)) (f 1))",
        "(labels ((f (x) (f x))) #'f)",
        "(locally (declare (optimize (speed 2) (safety 2))) 1)",
        "(the fixnum 1)",
        "(the (integer 0 3) 1)",
        "(block b (return-from b 1))",
        "(tagbody a (go a) 1)",
        "(catch 'a 1)",
        "(throw 'a 1)",
        "(unwind-protect 1 2 3)",
        "(multiple-value-call #'list 1 2)",
        "(multiple-value-prog1 1 2)",
        "(values)",
        "(values 1 2)",
        "(funcall #'car nil)",
        "(apply #'car nil nil)",
        "(setq)",
        "(let ((a 1) (b 2)) (setq a b b a))",
    ];
    let lines = [
        "(quote A)",
        "(if (quote 1) (quote 2) (quote NIL))",
        "(if (quote 1) (quote 2) (quote 3))",
        "(quote 1)",
        "(quote 1)",
        "(quote 2)",
        "(let () (quote 1))",
        "(let ((A.1 (quote NIL)) (B.2 (quote NIL)) (C.3 (quote 1))) A.1)",
        "(let ((A.1 (the FIXNUM (quote 1)))) (let ((B.2 (the FIXNUM A.1))) B.2))",
        "(labels ((F.1 (lambda (X.2) (block F.3 X.2)))) (call F.1 (quote 1)))",
        "(labels ((F.1 (lambda (X.2) (block F.3 (call F.1 X.2))))) (fun F.1))",
        "(quote 1)",
        "(the FIXNUM (quote 1))",
        "(the (INTEGER 0 3) (quote 1))",
        "(block B.1 (return B.1 (quote 1)))",
        "(tagbody A.1 (go A.1) 1.2)",
        "(catch (quote A) (quote 1))",
        "(throw (quote A) (quote 1))",
        "(unwind (quote 1) (progn (quote 2) (quote 3)))",
        "(mvcall (funglobal LIST) (quote 1) (quote 2))",
        "(mvprog1 (quote 1) (quote 2))",
        "(values)",
        "(values (quote 1) (quote 2))",
        "(funcall (funglobal CAR) (quote NIL))",
        "(apply (funglobal CAR) (quote NIL) (quote NIL))",
        "(quote NIL)",
        "(let ((A.1 (quote 1)) (B.2 (quote 2))) (progn (set A.1 B.2) (set B.2 A.1)))",
    ];
    expand(&rt, rt.alloc(), &sources, &lines)
}

#[test]
fn declarations_expand(rt: HostRuntime) -> Result<(), Fail> {
    let sources = [
        "(let ((a 1)) (declare (type (or fixnum null) a)) (setq a 2) a)",
        "(let ((a 1)) (declare (special a)) a)",
        "(let ((a 1)) (locally (declare (fixnum a)) (setq a (+ a 1)) a))",
        "(defun f (a) (declare (type list a) (ignore a)) 1)",
        "(declaim (type fixnum *c*)) (defvar *c* 1) (setq *c* 2)",
        "(let ((a 1) (b 2)) (declare (fixnum a) (type integer b)) (list a b))",
        "(let ((a 1)) (declare (ignorable a) (inline car) (notinline car)) 2)",
    ];
    let lines = [
        "(let ((A.1 (the (OR FIXNUM NULL) (quote 1)))) (progn (set A.1 (the (OR FIXNUM NULL) (quote 2))) A.1))",
        "(let (((special A) (quote 1))) (global A))",
        "(let ((A.1 (quote 1))) (progn (set A.1 (the FIXNUM (+ (the FIXNUM A.1) (quote 1)))) (the FIXNUM A.1)))",
        "(progn (setfun F (labels ((F.1 (lambda ((check LIST A.2)) (block F.3 (quote 1))))) (fun F.1))) (quote F))",
        "(quote NIL)",
        "(progn (if (BOUNDP (quote *C*)) (quote NIL) (setglobal *C* (the FIXNUM (quote 1)))) (quote *C*))",
        "(setglobal *C* (the FIXNUM (quote 2)))",
        "(let ((A.1 (the FIXNUM (quote 1))) (B.2 (the INTEGER (quote 2)))) (LIST A.1 B.2))",
        "(let ((A.1 (quote 1))) (quote 2))",
    ];
    expand(&rt, rt.alloc(), &sources, &lines)
}
