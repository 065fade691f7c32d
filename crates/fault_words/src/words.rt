//! What is said of faults.

ghost use Rattle.std.specs.Prelude.{◌≡◌, IfOk, length};

use crate::budget::Budget;
use crate::imports::{import_words, imports_in};
use crate::known::{IMPORTS, Known, LOCAL, NAMES, TYPES};
use crate::language::{foreign_words, language_of};
use crate::names::{Twice, twice_of, twice_words};
use crate::rules::rule_words;
use crate::tokens::{grammar_words, token_words};
use crate::types::{References, Types, references_in, type_words, types_of};
use proto_base::{Fault, Limits, Place, Spot};
use std::alloc::{AllocError, Global};
use std::collections::BTreeMap;

/// A source, by its name and its text.
#[derive(Clone, Copy)]
pub struct File<'s> {
    pub name: &'s str,
    pub text: &'s [u8],
}

/// Where something else stands that a fault is about, as what has a name already.
#[derive(Clone, Copy)]
pub struct Other<'s> {
    /// The name of the file.
    pub file: &'s str,
    pub place: Place,
}

/// What a fault is about.
#[derive(Drop)]
pub struct Words<'s> {
    /// What it is about, without a line's end.
    pub about: String,
    pub other: Option<Other<'s>>,
}

impl<'s> Words<'s> {
    /// Words that no other place belongs to.
    pub(crate) fn alone(about: String) -> Words<'s> {
        Words { about, other: None }
    }
}

/// The steps of the pass over files by themselves.
const TOKENS: u8 = 0;

const GRAMMAR: u8 = 1;

/// What is known of one file in which faults are, beside its text.
#[derive(Drop)]
struct Scene<'d, 's> {
    /// What is said of all its faults, where it is written in another language.
    foreign: Option<&'static str>,
    /// What is said of the rules that it breaks by itself.
    rules: BTreeMap<Spot, Words<'s>>,
    /// The paths that it imports, by their places.
    imports: BTreeMap<Place, &'d str>,
    /// The types that it spells, by their places.
    references: References<'d>,
}

impl<'d, 's> Scene<'d, 's> {
    fn new(alloc: Global) -> Scene<'d, 's> {
        Scene {
            foreign: None,
            rules: BTreeMap::new(alloc),
            imports: BTreeMap::new(alloc),
            references: BTreeMap::new(alloc),
        }
    }

    /// Takes in what faults that a file has by itself need.
    fn put_local(
        &mut self,
        alloc: Global,
        file: File<'s>,
        fault: &Fault,
        limits: &Limits,
    ) -> Result<(), AllocError> {
        self.foreign = foreign_words(language_of(alloc, file.text, limits)?);
        if fault.step > GRAMMAR {
            self.rules = rule_words(alloc, file, limits)?;
        }
        Ok(())
    }
}

/// What is known of the file at a position, as far as faults of the pass of this one need it.
fn scene_of<'d, 's>(
    alloc: Global,
    known: &'d Known<'_, 's>,
    at: Option<usize>,
    fault: &Fault,
) -> Result<Scene<'d, 's>, AllocError> {
    let mut scene = Scene::new(alloc);
    let Some(at) = at else {
        return Ok(scene);
    };
    match (fault.pass, known.files.get(at), known.desc_at(at)) {
        (LOCAL, Some(file), _) => scene.put_local(alloc, *file, fault, known.limits)?,
        (IMPORTS, _, Some(desc)) => scene.imports = imports_in(alloc, desc)?,
        (TYPES, _, Some(desc)) => scene.references = references_in(alloc, desc)?,
        _ => {}
    }
    Ok(scene)
}

/// What is said of a fault that a file has by itself.
fn local_words<'s>(
    alloc: Global,
    file: Option<&File<'s>>,
    scene: &mut Scene<'_, 's>,
    fault: &Fault,
    limits: &Limits,
) -> Result<Option<Words<'s>>, AllocError> {
    if let Some(foreign) = scene.foreign {
        return Ok(Some(Words::alone(String::from_str(alloc, foreign)?)));
    }
    let Some(File { text, .. }) = file else {
        return Ok(None);
    };
    match fault.step {
        TOKENS => token_words(alloc, text, fault.place, fault.kind),
        GRAMMAR => grammar_words(alloc, text, fault.place, fault.kind, limits),
        _ => {
            let spot = Spot {
                place: fault.place,
                kind: fault.kind,
            };
            Ok(scene.rules.remove(&spot))
        }
    }
}

/// What is said of faults, one after the other.
#[derive(Drop)]
struct Teller<'d, 'k, 's> {
    known: &'d Known<'k, 's>,
    twice: &'d Twice<'s>,
    types: &'d Types<'s>,
    budget: Budget,
    /// The file of the fault before, by its position, and what is known of it.
    file: Option<usize>,
    scene: Scene<'d, 's>,
}

impl<'d, 'k, 's> Teller<'d, 'k, 's> {
    fn new(
        alloc: Global,
        known: &'d Known<'k, 's>,
        twice: &'d Twice<'s>,
        types: &'d Types<'s>,
    ) -> Teller<'d, 'k, 's> {
        Teller {
            known,
            twice,
            types,
            budget: Budget::new(),
            file: None,
            scene: Scene::new(alloc),
        }
    }

    /// What is said of the fault at a position in the list of faults.
    fn words_of(
        &mut self,
        alloc: Global,
        at: usize,
        fault: &Fault,
    ) -> Result<Option<Words<'s>>, AllocError> {
        let known = self.known;
        let file = known.position(fault.file.as_str());
        if file != self.file {
            self.scene = scene_of(alloc, known, file, fault)?;
            self.file = file;
        }
        match fault.pass {
            LOCAL => {
                let file = file.and_then(|at| known.files.get(at));
                local_words(alloc, file, &mut self.scene, fault, known.limits)
            }
            IMPORTS => {
                let path = self.scene.imports.get(&fault.place).copied();
                import_words(alloc, known, &mut self.budget, path, fault)
            }
            NAMES => twice_words(alloc, self.twice, at, fault),
            TYPES => {
                let reference = self.scene.references.get(&fault.place);
                type_words(alloc, self.types, &mut self.budget, reference, fault)
            }
            _ => Ok(None),
        }
    }
}

/// What is said of each of these faults, in their order, as far as anything is: they are faults of one pass over these files, which
/// stand in the order of their names, and those of one file stand side by side.
///
/// Time grows in proportion to the files and the faults. Similar names, and circles, are looked for as long as this is so.
pub fn words_of_faults<'s>(
    alloc: Global,
    files: &[File<'s>],
    faults: &[Fault],
    limits: &Limits,
) -> Result<Vec<Option<Words<'s>>>, AllocError>
    ensures { IfOk result (λ words. length words.items ≡ length faults.now) }
{
    let known = Known::new(alloc, files, faults, limits)?;
    let twice = twice_of(alloc, &known, faults)?;
    let types = types_of(alloc, &known)?;
    let mut teller = Teller::new(alloc, &known, &twice, &types);
    let mut words = Vec::with_capacity(alloc, faults.len())?;
    for (at, fault) in faults.iter().enumerate() {
        words.push(teller.words_of(alloc, at, fault)?)?;
    }
    Ok(words)
}
