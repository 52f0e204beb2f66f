//! The symbols of base names that an expander looks for and writes, as constants: each symbol
//! table begins with the base names, so a base name's symbol is the same in all of them. The names
//! are the Lisp names, where these are names of Rust.

use crate::values::SymId;

// What the reader writes for its prefixes.
pub const QUOTE: SymId = SymId(2);

pub const FUNCTION: SymId = SymId(3);

pub const QUASIQUOTE: SymId = SymId(4);

pub const UNQUOTE: SymId = SymId(5);
/// `UNQUOTE-SPLICING`
pub const UNQUOTE_SPLICING: SymId = SymId(6);

// Types that expansions name.
pub const INTEGER: SymId = SymId(7);

pub const LIST: SymId = SymId(23);

pub const MEMBER: SymId = SymId(31);

// Declarations.
pub const DECLARE: SymId = SymId(37);

pub const DECLAIM: SymId = SymId(38);

pub const TYPE: SymId = SymId(39);

pub const SPECIAL: SymId = SymId(40);

pub const IGNORE: SymId = SymId(41);

pub const IGNORABLE: SymId = SymId(42);

pub const INLINE: SymId = SymId(43);

pub const NOTINLINE: SymId = SymId(44);
/// `DYNAMIC-EXTENT`
pub const DYNAMIC_EXTENT: SymId = SymId(45);

pub const OPTIMIZE: SymId = SymId(46);

pub const SPEED: SymId = SymId(47);

pub const SAFETY: SymId = SymId(48);

pub const SPACE: SymId = SymId(49);

pub const DEBUG: SymId = SymId(50);
/// `COMPILATION-SPEED`
pub const COMPILATION_SPEED: SymId = SymId(51);

// Special operators.
pub const SETQ: SymId = SymId(105);

pub const IF: SymId = SymId(106);

pub const PROGN: SymId = SymId(107);

pub const LET: SymId = SymId(108);
/// `LET*`
pub const LET_STAR: SymId = SymId(109);

pub const FLET: SymId = SymId(110);

pub const LABELS: SymId = SymId(111);

pub const LOCALLY: SymId = SymId(112);

pub const THE: SymId = SymId(113);

pub const BLOCK: SymId = SymId(114);
/// `RETURN-FROM`
pub const RETURN_FROM: SymId = SymId(115);

pub const TAGBODY: SymId = SymId(116);

pub const GO: SymId = SymId(117);

pub const CATCH: SymId = SymId(118);

pub const THROW: SymId = SymId(119);
/// `UNWIND-PROTECT`
pub const UNWIND_PROTECT: SymId = SymId(120);
/// `MULTIPLE-VALUE-CALL`
pub const MULTIPLE_VALUE_CALL: SymId = SymId(121);
/// `MULTIPLE-VALUE-PROG1`
pub const MULTIPLE_VALUE_PROG1: SymId = SymId(122);

pub const VALUES: SymId = SymId(123);

pub const FUNCALL: SymId = SymId(124);

pub const APPLY: SymId = SymId(125);

pub const TYPEP: SymId = SymId(126);

// Words of lambda lists.
/// `&OPTIONAL`
pub const LAMBDA_LIST_OPTIONAL: SymId = SymId(127);
/// `&REST`
pub const LAMBDA_LIST_REST: SymId = SymId(128);
/// `&KEY`
pub const LAMBDA_LIST_KEY: SymId = SymId(129);
/// `&AUX`
pub const LAMBDA_LIST_AUX: SymId = SymId(130);

// Macros, and what their forms hold.
pub const AND: SymId = SymId(33);

pub const OR: SymId = SymId(34);

pub const COND: SymId = SymId(131);

pub const WHEN: SymId = SymId(132);

pub const UNLESS: SymId = SymId(133);

pub const CASE: SymId = SymId(134);

pub const ECASE: SymId = SymId(135);

pub const OTHERWISE: SymId = SymId(136);

pub const TYPECASE: SymId = SymId(137);

pub const ETYPECASE: SymId = SymId(138);

pub const LOOP: SymId = SymId(139);

pub const DO: SymId = SymId(140);
/// `DO*`
pub const DO_STAR: SymId = SymId(141);

pub const DOTIMES: SymId = SymId(142);

pub const DOLIST: SymId = SymId(143);

pub const RETURN: SymId = SymId(144);

pub const PROG: SymId = SymId(145);
/// `PROG*`
pub const PROG_STAR: SymId = SymId(146);

pub const PROG1: SymId = SymId(147);

pub const PROG2: SymId = SymId(148);

pub const PSETQ: SymId = SymId(149);

pub const SETF: SymId = SymId(150);

pub const INCF: SymId = SymId(151);

pub const DECF: SymId = SymId(152);

pub const PUSH: SymId = SymId(153);

pub const POP: SymId = SymId(154);
/// `MULTIPLE-VALUE-BIND`
pub const MULTIPLE_VALUE_BIND: SymId = SymId(155);
/// `MULTIPLE-VALUE-LIST`
pub const MULTIPLE_VALUE_LIST: SymId = SymId(156);
/// `MULTIPLE-VALUE-SETQ`
pub const MULTIPLE_VALUE_SETQ: SymId = SymId(157);
/// `NTH-VALUE`
pub const NTH_VALUE: SymId = SymId(158);

pub const LAMBDA: SymId = SymId(159);

pub const DEFUN: SymId = SymId(160);

pub const DEFVAR: SymId = SymId(161);

pub const DEFPARAMETER: SymId = SymId(162);

pub const DEFCONSTANT: SymId = SymId(163);
/// `IN-PACKAGE`
pub const IN_PACKAGE: SymId = SymId(164);
/// `CL-USER`
pub const CL_USER: SymId = SymId(165);
/// `COMMON-LISP-USER`
pub const COMMON_LISP_USER: SymId = SymId(166);

// Functions that expansions call, and places with their writers.
pub const CONS: SymId = SymId(22);

pub const CAR: SymId = SymId(61);

pub const CDR: SymId = SymId(62);

pub const RPLACA: SymId = SymId(63);

pub const RPLACD: SymId = SymId(64);

pub const SVREF: SymId = SymId(67);

pub const SCHAR: SymId = SymId(68);
/// `%SVSET`
pub const SET_SVREF: SymId = SymId(69);
/// `%SCHARSET`
pub const SET_SCHAR: SymId = SymId(70);
/// `SYMBOL-VALUE`
pub const SYMBOL_VALUE: SymId = SymId(97);

pub const SET: SymId = SymId(99);

pub const BOUNDP: SymId = SymId(100);
/// `READ-CHAR`
pub const READ_CHAR: SymId = SymId(94);
/// `+`
pub const ADD: SymId = SymId(74);
/// `-`
pub const SUBTRACT: SymId = SymId(75);
/// `*`
pub const STAR: SymId = SymId(36);
/// `>=`
pub const GREATER_OR_EQUAL: SymId = SymId(84);

pub const FIRST: SymId = SymId(235);

pub const REST: SymId = SymId(238);

pub const NTH: SymId = SymId(240);

pub const AREF: SymId = SymId(272);
/// `%KEYP`
pub const HELPER_KEYP: SymId = SymId(286);
/// `%KEY`
pub const HELPER_KEY: SymId = SymId(287);
/// `%APPEND`
pub const HELPER_APPEND: SymId = SymId(288);
/// `%NTHSET`
pub const HELPER_NTHSET: SymId = SymId(289);
/// `%ASET`
pub const HELPER_ASET: SymId = SymId(290);

// Direct calls and type predicates.
/// `1+`
pub const INCREMENT: SymId = SymId(167);
/// `1-`
pub const DECREMENT: SymId = SymId(168);

pub const ERROR: SymId = SymId(169);

pub const EQL: SymId = SymId(32);

pub const CHAR: SymId = SymId(170);

pub const NOT: SymId = SymId(35);

pub const NULL: SymId = SymId(20);

pub const ATOM: SymId = SymId(24);

pub const CONSP: SymId = SymId(171);

pub const LISTP: SymId = SymId(172);

pub const SYMBOLP: SymId = SymId(173);

pub const KEYWORDP: SymId = SymId(174);

pub const INTEGERP: SymId = SymId(175);

pub const NUMBERP: SymId = SymId(176);

pub const CHARACTERP: SymId = SymId(177);

pub const FUNCTIONP: SymId = SymId(178);

pub const STRINGP: SymId = SymId(179);
/// `SIMPLE-STRING-P`
pub const SIMPLE_STRING_P: SymId = SymId(180);

pub const VECTORP: SymId = SymId(181);
/// `SIMPLE-VECTOR-P`
pub const SIMPLE_VECTOR_P: SymId = SymId(182);
