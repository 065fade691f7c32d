//! Faults with the names of their files.

ghost use Rattle.std.specs.Prelude.{◌≡◌, ◌++◌, IfOk, OnOk, length, map};
ghost use Rattle.file_faults.specs.FaultSpots.{AreWithin, fault_at};
ghost use Rattle.file_faults.specs.Found.{faults_in, named_by};
ghost use Rattle.proto_compile.specs.FaultSet.{fault as source_fault, told_by};

use proto_base::{Fault, FileFault, ONLY_STEP};
use proto_compile::{LOCAL_PASS, Source};
use proto_desc::file::FileDesc;
use proto_links::FileSpot;
use std::alloc::{AllocError, Global};

/// A fault that a pass of this number finds, with the name of its file.
fn named(alloc: Global, pass: u8, name: &str, found: FileFault) -> Result<Fault, AllocError>
    ensures { IfOk result (λ fault. told_by fault ≡ source_fault pass name.now found) }
{
    Ok(Fault {
        pass,
        file: String::from_str(alloc, name)?,
        step: found.step,
        place: found.spot.place,
        kind: found.spot.kind,
    })
}

/// Puts what was found in a source by itself behind other faults, with the name of its file.
fn put_found(
    alloc: Global,
    faults: &mut Vec<Fault>,
    source: &Source,
    found: &[FileFault],
) -> Result<(), AllocError>
    ensures { OnOk result (map told_by faults.new.items
        ≡ map told_by faults.old.items ++ named_by source.now found.now) }
{
    for fault in found {
        faults.push(named(alloc, LOCAL_PASS, source.name, *fault)?)?;
    }
    Ok(())
}

/// The faults that were found in sources, with the names of their files.
pub(crate) fn all_named(
    alloc: Global,
    files: &[Source],
    found: &[Vec<FileFault>],
) -> Result<Vec<Fault>, AllocError>
    requires { length found.now ≡ length files.now }
    ensures { IfOk result (λ faults. map told_by faults.items ≡ faults_in files.now found.now) }
{
    let mut faults = Vec::new(alloc);
    for (at, source) in files.iter().enumerate() {
        put_found(alloc, &mut faults, source, found[at].as_slice())?;
    }
    Ok(faults)
}

/// The faults at spots of files, which a pass of this number and of one step finds.
pub(crate) fn named_spots(
    alloc: Global,
    pass: u8,
    descs: &[FileDesc],
    spots: &[FileSpot],
) -> Result<Vec<Fault>, AllocError>
    requires { AreWithin descs.now spots.now }
    ensures { IfOk result (λ faults. map told_by faults.items ≡ map (fault_at pass descs.now) spots.now) }
{
    let mut faults = Vec::with_capacity(alloc, spots.len())?;
    for found in spots {
        let name = descs[found.file].name.as_str();
        let fault = FileFault {
            step: ONLY_STEP,
            spot: found.spot,
        };
        faults.push(named(alloc, pass, name, fault)?)?;
    }
    Ok(faults)
}
