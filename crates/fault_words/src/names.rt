//! What is said of names that are there twice.

use crate::declared::{Declaration, Sink, put_file};
use crate::known::{Known, NAMES};
use crate::words::{Other, Words};
use proto_base::{Fault, Kind, Place};
use proto_desc::file::FileDesc;
use std::alloc::{AllocError, Global};
use std::collections::BTreeMap;

/// The full names that a file declares at each place.
type NamesAt = BTreeMap<Place, Vec<String>>;

/// Where a name is declared, and for what.
#[derive(Clone, Copy)]
pub(crate) struct Declared<'s> {
    pub(crate) at: Other<'s>,
    pub(crate) what: Declaration,
}

/// The first declarations of names, as far as they are known.
type Firsts<'s> = BTreeMap<String, Option<Declared<'s>>>;

/// Names that are told to be there twice.
#[derive(Drop)]
pub(crate) struct Twice<'s> {
    /// The names that are declared at the place of each fault.
    asked: Vec<Vec<String>>,
    /// The first declaration of each of these.
    firsts: Firsts<'s>,
}

impl<'s> Twice<'s> {
    pub(crate) fn new(alloc: Global) -> Twice<'s> {
        Twice {
            asked: Vec::new(alloc),
            firsts: BTreeMap::new(alloc),
        }
    }

    /// Asks for these names, at the place of the next fault.
    fn ask(&mut self, alloc: Global, names: Vec<String>) -> Result<(), AllocError> {
        for name in &names {
            self.firsts
                .insert(String::from_str(alloc, name.as_str())?, None)?;
        }
        self.asked.push(names)?;
        Ok(())
    }

    /// The names that are declared at the place of a fault, by its position in the list of faults.
    fn names_at(&self, fault: usize) -> &[String] {
        match self.asked.get(fault) {
            Some(names) => names.as_slice(),
            None => &[],
        }
    }
}

/// Takes in the names of a file by their places.
#[derive(Drop)]
struct ByPlace {
    alloc: Global,
    names: NamesAt,
}

impl Sink for ByPlace {
    fn take(&mut self, full: String, place: Place, _what: Declaration) -> Result<(), AllocError> {
        match self.names.get_mut(&place) {
            Some(names) => names.push(full)?,
            None => {
                let mut names = Vec::new(self.alloc);
                names.push(full)?;
                self.names.insert(place, names)?;
            }
        }
        Ok(())
    }
}

/// The names that a file declares, by their places.
fn names_by_place(alloc: Global, desc: &FileDesc) -> Result<NamesAt, AllocError> {
    let mut sink = ByPlace {
        alloc,
        names: BTreeMap::new(alloc),
    };
    put_file(alloc, desc, &mut sink)?;
    Ok(sink.names)
}

/// Takes in the first declaration of each name that is asked for.
#[derive(Drop)]
struct ByName<'f, 's> {
    file: &'s str,
    firsts: &'f mut Firsts<'s>,
}

impl<'s> Sink for ByName<'_, 's> {
    fn take(&mut self, full: String, place: Place, what: Declaration) -> Result<(), AllocError> {
        if let Some(first) = self.firsts.get_mut(&full) {
            if first.is_none() {
                let at = Other {
                    file: self.file,
                    place,
                };
                *first = Some(Declared { at, what });
            }
        }
        Ok(())
    }
}

/// The names that the file at a position declares, by their places.
fn names_in(
    alloc: Global,
    known: &Known<'_, '_>,
    file: Option<usize>,
) -> Result<NamesAt, AllocError> {
    match file.and_then(|at| known.desc_at(at)) {
        Some(desc) => names_by_place(alloc, desc),
        None => Ok(BTreeMap::new(alloc)),
    }
}

/// Finds the first declarations of names that are asked for.
fn put_firsts<'s>(
    alloc: Global,
    known: &Known<'_, 's>,
    firsts: &mut Firsts<'s>,
) -> Result<(), AllocError> {
    for (at, file) in known.files.iter().enumerate() {
        if let Some(desc) = known.desc_at(at) {
            let mut sink = ByName {
                file: file.name,
                firsts,
            };
            put_file(alloc, desc, &mut sink)?;
        }
    }
    Ok(())
}

/// The names that faults tell to be there twice; none, where they are of another pass.
pub(crate) fn twice_of<'s>(
    alloc: Global,
    known: &Known<'_, 's>,
    faults: &[Fault],
) -> Result<Twice<'s>, AllocError> {
    let mut twice = Twice::new(alloc);
    if known.pass != NAMES {
        return Ok(twice);
    }
    let mut names = BTreeMap::new(alloc);
    let mut current = None;
    for fault in faults {
        let file = known.position(fault.file.as_str());
        if file != current {
            names = names_in(alloc, known, file)?;
            current = file;
        }
        let asked = names.remove(&fault.place).unwrap_or(Vec::new(alloc));
        twice.ask(alloc, asked)?;
    }
    put_firsts(alloc, known, &mut twice.firsts)?;
    Ok(twice)
}

/// What is said of a name that another element has: of the fault at a position in the list of faults.
pub(crate) fn twice_words<'s>(
    alloc: Global,
    twice: &Twice<'s>,
    at: usize,
    fault: &Fault,
) -> Result<Option<Words<'s>>, AllocError> {
    if fault.kind != Kind::NameTwice {
        return Ok(None);
    }
    for name in twice.names_at(at) {
        if let Some(Some(first)) = twice.firsts.get(name) {
            if first.at.file != fault.file.as_str() || first.at.place != fault.place {
                let what = first.what.name();
                return Ok(Some(Words {
                    about: format!(in alloc; "`{name}` is the name of {what}")?,
                    other: Some(first.at),
                }));
            }
        }
    }
    Ok(None)
}
