// The conversion of a form, by its kind.
ghost use Rattle.std.specs.Prelude.{OnOk};
ghost use Rattle.core_form.specs.Reading.{core_of};
ghost use Rattle.icr_convert.specs.Converting.{Converts};

use crate::converter::Converter;
use crate::names::Names;
use crate::setting::Setting;
use core_form::{Core, Form, reads_lists, reads_nodes};
use std::alloc::AllocError;

impl Converter {
    /// Adds what a form does to the graph, at its place and in its setting.
    #[cycle(convert)]
    pub(crate) fn convert(
        &mut self,
        names: &Names,
        form: &Core,
        setting: Setting,
    ) -> Result<(), AllocError>
        ensures { OnOk result (Converts names.now setting (core_of form.now) self.old.built self.new.built) }
    {
        reads_lists();
        reads_nodes();
        let place = form.place;
        match &form.form {
            Form::Quote(value) => self.quote(names, place, *value, setting),
            Form::Local(number) => self.local(names, place, *number, setting),
            Form::SetLocal(number, value) => self.set_local(names, place, *number, value, setting),
            Form::Global(name) => self.global(names, place, *name, setting),
            Form::SetGlobal(name, value) => self.set_global(names, place, *name, value, setting),
            Form::If(_, _, _) => self.choice(names, form, setting),
            Form::Progn(parts) => self.sequence(names, place, parts, setting),
            Form::Let(_, _) => self.binding(names, form, setting),
            Form::Lambda(lambda) => self.function(names, place, lambda, setting),
            Form::Labels(definitions, body) => self.labels(
                names,
                place,
                body,
                definitions,
                setting,
            ),
            Form::CallLocal(number, parts) => self.call_local(
                names, place, *number, parts, setting,
            ),
            Form::CallGlobal(name, parts) => self.call_global(names, place, *name, parts, setting),
            Form::Funcall(_, _) => self.funcall(names, form, setting),
            Form::Apply(_, _) => self.apply(names, form, setting),
            Form::MvCall(_, _) => self.call_with_values(names, form, setting),
            Form::FunLocal(number) => self.local_function(names, place, *number, setting),
            Form::FunGlobal(name) => self.global_function(names, place, *name, setting),
            Form::SetFun(name, value) => self.set_function(names, place, *name, value, setting),
            Form::Primitive(primitive, parts) => self.primitive(
                names, place, *primitive, parts, setting,
            ),
            Form::Is(spec, value) => self.is(names, place, value, spec, setting),
            Form::The(spec, value) => self.the(names, place, value, spec, setting),
            Form::Block(number, name, body) => self.block(
                names, place, *number, *name, body, setting,
            ),
            Form::ReturnFrom(number, value) => self.return_from(
                names, place, *number, value, setting,
            ),
            Form::Tagbody(items) => self.tagbody(names, place, items, setting),
            Form::Go(tag) => self.go(names, place, *tag, setting),
            Form::Catch(_, _) => self.catch(names, form, setting),
            Form::Throw(_, _) => self.throw(names, form, setting),
            Form::Unwind(_, _) => self.unwind(names, form, setting),
            Form::Values(parts) => self.values(names, place, parts, setting),
            Form::MvProg1(_, _) => self.values_before(names, form, setting),
        }
    }
}
