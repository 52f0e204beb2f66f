// TAGBODY.
ghost use Rattle.std.specs.Prelude.{◌≡◌, IfOk, OnOk};
ghost use Rattle.core_form.specs.Tree as tree;
ghost use Rattle.core_form.specs.Facts.{tagbody_number as number_of_tagbody};
ghost use Rattle.core_form.specs.ListReading.{items_list};
ghost use Rattle.graph_building.specs.Built.{Beside};
ghost use Rattle.icr_convert.specs.Converting.{AreTags, Converts, ConvertsItems};

use crate::converter::Converter;
use crate::names::Names;
use crate::numbered::put;
use crate::setting::{Setting, one_more};
use core_form::Item;
use icr_graph::{Extent, Leaf, Leaving, Listing, NodeIds, NodeKind, Tag};
use lisp_base::{NIL, Place, Val};
use std::alloc::AllocError;

/// The number of a tagbody: that of its first tag, or 0.
fn tagbody_number(items: &[Item]) -> u32
    ensures { result ≡ number_of_tagbody (items_list items.now) }
{
    for item in items {
        if let Item::Tag(number, _) = item {
            return *number;
        }
    }
    0
}

impl Converter {
    #[cycle(convert)]
    pub(crate) fn tagbody(
        &mut self,
        names: &Names,
        place: Place,
        items: &[Item],
        setting: Setting,
    ) -> Result<(), AllocError>
        ensures { OnOk result (Converts names.now setting (tree.Tagbody place (items_list items.now)) self.old.built self.new.built) }
    {
        let number = tagbody_number(items);
        let variable = names.variable(number)?;
        let tags = self.tags(items)?;
        let listed = Listing::from_vec(Vec::from_slice(self.alloc, tags.as_slice())?);
        let kind = NodeKind::Entry {
            extent: Extent::Tags {
                variable,
                tags: listed,
            },
            exits: NodeIds::new(self.alloc),
        };
        let entry = self.plain(kind, None, one_more(setting.cost)?, place)?;
        put(&mut self.entries, number, entry)?;
        self.items(names, items, tags.as_slice())?;
        self.exit(Leaving::Close, Some(entry), place)?;
        self.leaf(Leaf::Constant(Val::Sym(NIL)), 0, place, setting)?;
        Ok(())
    }

    /// The tags of a tagbody, each with a block of its own.
    pub(crate) fn tags(&mut self, items: &[Item]) -> Result<Vec<Tag>, AllocError>
        ensures tags { IfOk result (λ tags. AreTags (items_list items.now) tags.items) }
        ensures beside { OnOk result (Beside self.old.built self.new.built) }
    {
        let mut tags = Vec::new(self.alloc);
        for item in items {
            if let Item::Tag(number, name) = item {
                let block = self.built.block()?;
                tags.push(Tag {
                    number: *number,
                    name: *name,
                    block,
                })?;
            }
        }
        Ok(tags)
    }

    /// Converts the forms of a tagbody. At each tag the block of the tag begins.
    #[cycle(convert)]
    pub(crate) fn items(
        &mut self,
        names: &Names,
        items: &[Item],
        tags: &[Tag],
    ) -> Result<(), AllocError>
        requires { AreTags (items_list items.now) tags.now }
        ensures { OnOk result (ConvertsItems names.now (items_list items.now) tags.now self.old.built self.new.built) }
    {
        let mut rest = tags;
        for item in items {
            match item {
                Item::Tag(_, _) => {
                    let [tag, others @ ..] = rest else {
                        return Err(AllocError);
                    };
                    self.built.go_on(tag.block, tag.block)?;
                    rest = others;
                }
                Item::Step(form) => self.convert(names, form, Setting::effect(0))?,
            }
        }
        Ok(())
    }
}
