//! Places in a document.
use fw_base::Name;
use std::fmt;

/// A place in a document: a section, up to three indexes in it (from 0, and 0 where there is none),
/// and a field.
#[derive(Clone, Copy, Debug)]
pub struct Place {
    pub section: Name,
    pub index: [u32; 3],
    pub field: Name,
}

impl fmt::Display for Place {
    fn fmt<W: fmt::Write>(&self, f: &mut fmt::Formatter<W>) -> fmt::Result {
        let [first, second, third] = self.index;
        write_name(f, &self.section)?;
        write!(f, " {first} {second} {third} ")?;
        write_name(f, &self.field)
    }
}

/// Writes a name, which is ASCII.
fn write_name<W: fmt::Write>(f: &mut fmt::Formatter<W>, name: &Name) -> fmt::Result {
    match std::str::from_utf8(name.bytes()) {
        Ok(text) => f.write_str(text),
        Err(_) => Err(fmt::Error),
    }
}
