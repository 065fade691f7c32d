//! The packages that many files have, with these files as rows of bits.

ghost use Rattle.std.specs.Prelude.{◌≡◌, ◌+◌, ◌<◌, ◌≤◌, ◌↔◌, All, IfOk, IfSome, IsTrue, List, OnOk, drop, length, take};
ghost use Rattle.std.specs.Ordering.{nat_cmp};
ghost use Rattle.bit_matrix.specs.Changes.{columns_of};
ghost use Rattle.proto_names.specs.Occurrences.{IsPackage, Occurrence};
ghost use Rattle.proto_names.specs.Packages.{ArePackagesOf, HasFilesOf, HasPackagePut, IsPackageOf};

use crate::names::Names;
use bit_matrix::BitMatrix;
use std::alloc::{AllocError, Global};
use std::cmp::Ordering;

/// How many entries of a name are looked at one by one.
const FEW: usize = 64;

/// The files of a package, as a row in which they are set.
#[derive(Drop)]
pub(crate) struct PackageFiles<'p> {
    pub(crate) files: &'p BitMatrix,
    pub(crate) row: usize,
}

/// Where the entries of a package begin, and how many there are.
#[derive(Drop)]
struct PackageRun {
    start: usize,
    len: usize,
}

/// The packages that many files have, in the order of their entries, and a row for each in which its files are set.
#[derive(Drop)]
pub(crate) struct Packages {
    runs: Vec<PackageRun>,
    files: BitMatrix,
}

/// Whether entries are all of packages.
fn are_packages(names: &Names) -> bool
    ensures { IsTrue result ↔ All IsPackage names.now }
{
    for position in 0..names.len() {
        if names.kind(position).is_some() {
            return false;
        }
    }
    true
}

/// Sets the files of entries in a row.
fn insert_files(files: &mut BitMatrix, row: usize, names: &Names)
    requires row { row < files.old.rows }
    requires columns { All (λ o. o.file < columns_of files.old) names.now }
    ensures { HasFilesOf files.old row names.now files.new }
{
    for position in 0..names.len() {
        files.insert(row, names.location(position).file as usize);
    }
}

/// How many entries from a position on have its name.
fn count_alike(names: &Names, start: usize) -> usize
    requires { start < length names.now }
    ensures some { 0 < result }
    ensures within { start + result ≤ length names.now }
{
    let count = names.len();
    let mut end = start + 1;
    while end < count && names.have_one_name(start, end) {
        end += 1;
    }
    end - start
}

impl Packages {
    /// Puts the package of these entries, which begin at a position, behind the others.
    fn push(&mut self, names: &Names, start: usize) -> Result<(), AllocError>
        requires rows { self.old.files.rows ≡ length self.old.runs.items }
        requires columns { All (λ o. o.file < columns_of self.old.files) names.now }
        requires packages { All IsPackage names.now }
        ensures { OnOk result (HasPackagePut names.now start self.old.runs.items self.old.files
            self.new.runs.items self.new.files) }
    {
        self.files.push_row()?;
        insert_files(&mut self.files, self.runs.len(), names);
        self.runs.push(PackageRun {
            start,
            len: names.len(),
        })?;
        Ok(())
    }

    /// The packages among entries, which stand in the order of their names, in so many files.
    pub(crate) fn among(alloc: Global, names: &Names, files: usize) -> Result<Packages, AllocError>
        requires { All (λ o. o.file < files) names.now }
        ensures { IfOk result (λ packages. ArePackagesOf names.now packages.runs.items
            packages.files) }
    {
        let mut packages = Packages {
            runs: Vec::new(alloc),
            files: BitMatrix::new(alloc, files),
        };
        let mut start = 0;
        while start < names.len() {
            let named = names.skip(start).take(count_alike(names, start));
            if named.len() > FEW && are_packages(&named) {
                packages.push(&named, start)?;
            }
            start += named.len();
        }
        Ok(packages)
    }

    /// The files of the package whose entries begin at a position, where these are all that have its name and are many.
    pub(crate) fn files_of(&self, start: usize, len: usize) -> Option<PackageFiles<'_>>
        ensures { IfSome result (λ p. (os : List Occurrence)
            → ArePackagesOf os self.now.runs.items self.now.files
            → IsPackageOf (take len (drop start os)) p.files.now p.row) }
    {
        let found = self.runs.binary_search_by(
            |run: &PackageRun| -> Ordering
                ensures { result ≡ nat_cmp run.now.start start }
            { run.start.cmp(&start) },
        );
        match found {
            Ok(row) if self.runs[row].len == len => Some(PackageFiles {
                files: &self.files,
                row,
            }),
            _ => None,
        }
    }
}
