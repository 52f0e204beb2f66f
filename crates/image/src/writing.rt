//! An image, written as bytes.

ghost use Rattle.std.specs.Prelude.{◌≡◌, ◌<◌, ◌^◌, ◌++◌, IfOk, IsTrue, OnOk, length, string_bytes};
ghost use Rattle.std.specs.List.{list_all};
ghost use Rattle.std.specs.Int.{w32, w64, to_le_bytes};
ghost use Rattle.debug_info.specs.Spelling.{class_code, function_bytes, location_number, offset_of as offset_of_place, place_bytes, site_bytes, source_of as source_of_place, table_bytes, tail_of as tail_of_place, text_bytes, text_number, variable_bytes};
ghost use Rattle.debug_info.specs.Texts.{bytes_of};
ghost use Rattle.debug_info.specs.Tables.{is_location, is_text, is_variable};
ghost use Rattle.image.specs.Content.{debug_bytes, header_bytes, spelling};
ghost use Rattle.image.specs.View.{view};

use crate::format::{MAGIC, NO_TEXT, VERSION};
use crate::image::Image;
use byteorder::{ByteOrder, LittleEndian};
use debug_info::{Debug, FunRow, Location, LocationClass, SitePlace, SiteRow, VarRow};
use std::alloc::{AllocError, Global};

fn put_u32(out: &mut Vec<u8>, number: u32) -> Result<(), AllocError>
    ensures { OnOk result (out.new.items ≡ out.old.items ++ to_le_bytes w32 number) }
{
    let mut bytes = [0; 4];
    LittleEndian::write_u32(&mut bytes, number);
    out.extend_from_slice(&bytes)
}

fn put_u64(out: &mut Vec<u8>, number: u64) -> Result<(), AllocError>
    ensures { OnOk result (out.new.items ≡ out.old.items ++ to_le_bytes w64 number) }
{
    let mut bytes = [0; 8];
    LittleEndian::write_u64(&mut bytes, number);
    out.extend_from_slice(&bytes)
}

fn put_text(out: &mut Vec<u8>, text: &String) -> Result<(), AllocError>
    requires { length (string_bytes text.now) < 2 ^ 32 }
    ensures { OnOk result (out.new.items ≡ out.old.items ++ text_bytes (string_bytes text.now)) }
{
    let bytes = text.as_bytes();
    put_u32(out, bytes.len() as u32)?;
    out.extend_from_slice(bytes)
}

fn offset_of(place: SitePlace) -> u32
    ensures { result ≡ offset_of_place place }
{
    match place {
        SitePlace::File { offset, tail: _ } => offset,
        SitePlace::Prelude { text } => text,
    }
}

fn tail_of(place: SitePlace) -> u32
    ensures { result ≡ tail_of_place place }
{
    match place {
        SitePlace::File { offset: _, tail } => tail,
        SitePlace::Prelude { text: _ } => 0,
    }
}

fn source_of(place: SitePlace) -> u32
    ensures { result ≡ source_of_place place }
{
    match place {
        SitePlace::File { offset: _, tail: _ } => 0,
        SitePlace::Prelude { text: _ } => 1,
    }
}

fn number_of(text: Option<u32>) -> u32
    ensures { result ≡ text_number text }
{
    match text {
        None => NO_TEXT,
        Some(number) => number,
    }
}

fn put_place(out: &mut Vec<u8>, place: SitePlace) -> Result<(), AllocError>
    ensures { OnOk result (out.new.items ≡ out.old.items ++ place_bytes place) }
{
    put_u32(out, offset_of(place))?;
    put_u32(out, tail_of(place))?;
    put_u32(out, source_of(place))
}

fn put_site(out: &mut Vec<u8>, row: &SiteRow) -> Result<(), AllocError>
    ensures { OnOk result (out.new.items ≡ out.old.items ++ site_bytes row.now) }
{
    put_u64(out, row.pc)?;
    put_place(out, row.place)?;
    put_u32(out, number_of(row.text))
}

fn put_function(out: &mut Vec<u8>, row: &FunRow) -> Result<(), AllocError>
    ensures { OnOk result (out.new.items ≡ out.old.items ++ function_bytes row.now) }
{
    put_u64(out, row.start)?;
    put_u32(out, row.name)?;
    put_u32(out, row.words)
}

fn code_of(class: LocationClass) -> u8
    ensures { result ≡ class_code class }
{
    match class {
        LocationClass::DescriptorRegister => 0,
        LocationClass::WordRegister => 1,
        LocationClass::CharacterRegister => 2,
        LocationClass::ControlSlot => 3,
        LocationClass::WordSlot => 4,
        LocationClass::CharacterSlot => 5,
        LocationClass::Other { code } => code,
    }
}

fn location_of(location: Location) -> u32
    requires { IsTrue (is_location location) }
    ensures { result ≡ location_number location }
{
    u32::from(code_of(location.class)) * 0x100_0000 + location.number
}

fn put_variable(out: &mut Vec<u8>, row: &VarRow) -> Result<(), AllocError>
    requires { IsTrue (is_location row.now.location) }
    ensures { OnOk result (out.new.items ≡ out.old.items ++ variable_bytes row.now) }
{
    put_u64(out, row.from)?;
    put_u64(out, row.to)?;
    put_u32(out, row.name)?;
    put_u32(out, location_of(row.location))
}

fn put_texts(out: &mut Vec<u8>, texts: &[String]) -> Result<(), AllocError>
    requires count { length texts.now < 2 ^ 32 }
    requires texts { IsTrue (list_all is_text (bytes_of texts.now)) }
    ensures { OnOk result (out.new.items ≡ out.old.items ++ table_bytes text_bytes (bytes_of texts.now)) }
{
    put_u32(out, texts.len() as u32)?;
    for text in texts {
        put_text(out, text)?;
    }
    Ok(())
}

fn put_sites(out: &mut Vec<u8>, rows: &[SiteRow]) -> Result<(), AllocError>
    requires { length rows.now < 2 ^ 32 }
    ensures { OnOk result (out.new.items ≡ out.old.items ++ table_bytes site_bytes rows.now) }
{
    put_u32(out, rows.len() as u32)?;
    for row in rows {
        put_site(out, row)?;
    }
    Ok(())
}

fn put_functions(out: &mut Vec<u8>, rows: &[FunRow]) -> Result<(), AllocError>
    requires { length rows.now < 2 ^ 32 }
    ensures { OnOk result (out.new.items ≡ out.old.items ++ table_bytes function_bytes rows.now) }
{
    put_u32(out, rows.len() as u32)?;
    for row in rows {
        put_function(out, row)?;
    }
    Ok(())
}

fn put_variables(out: &mut Vec<u8>, texts: usize, rows: &[VarRow]) -> Result<(), AllocError>
    requires count { length rows.now < 2 ^ 32 }
    requires rows { IsTrue (list_all (is_variable texts) rows.now) }
    ensures { OnOk result (out.new.items ≡ out.old.items ++ table_bytes variable_bytes rows.now) }
{
    put_u32(out, rows.len() as u32)?;
    for row in rows {
        put_variable(out, row)?;
    }
    Ok(())
}

#[tactic(auto, unfolding(debug_info::specs::Spelling::tables_bytes))]
fn put_debug(out: &mut Vec<u8>, debug: &Debug) -> Result<(), AllocError>
    ensures { OnOk result (out.new.items ≡ out.old.items ++ debug_bytes debug.now) }
{
    let texts = debug.texts();
    put_texts(out, texts)?;
    put_sites(out, debug.sites())?;
    put_functions(out, debug.functions())?;
    put_variables(out, texts.len(), debug.variables())
}

// The magic, the version, the lengths of the three parts, and the entry.
fn put_header(
    out: &mut Vec<u8>,
    code: u64,
    statics: u64,
    debug: u64,
    entry: u64,
) -> Result<(), AllocError>
    ensures { OnOk result (out.new.items ≡ out.old.items ++ header_bytes code statics debug entry) }
{
    put_u32(out, MAGIC)?;
    put_u32(out, VERSION)?;
    put_u64(out, code)?;
    put_u64(out, statics)?;
    put_u64(out, debug)?;
    put_u64(out, entry)
}

/// The one spelling of the image. It takes time in proportion to the bytes.
#[tactic(auto, unfolding(crate::specs::Content::spelling))]
pub fn write(alloc: Global, image: &Image) -> Result<Vec<u8>, AllocError>
    ensures { IfOk result (λ v. v.items ≡ spelling (view image.now)) }
{
    let mut debug = Vec::new(alloc);
    put_debug(&mut debug, &image.debug)?;
    let mut out = Vec::new(alloc);
    let (code, statics) = (image.code.len() as u64, image.statics.len() as u64);
    put_header(&mut out, code, statics, debug.len() as u64, image.entry)?;
    out.extend_from_slice(&image.code)?;
    out.extend_from_slice(&image.statics)?;
    out.extend_from_slice(&debug)?;
    Ok(out)
}
