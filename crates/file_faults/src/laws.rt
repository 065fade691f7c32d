//! Laws over the definitions.

ghost use Rattle.std.specs.Prelude.{◌≡◌, ◌≤◌, ℕ, List, Contains, length};
ghost use Rattle.file_faults.specs.OwnFaults.{AreFileFaults, HasFault, NamesDiffer};
ghost use Rattle.proto_base.specs.Limits.{limit_of};
ghost use Rattle.proto_base.specs.declared.limits.Limit.TheVariants as limit;
ghost use Rattle.proto_base.specs.declared.limits.Limits.{Limits};
ghost use Rattle.proto_compile.specs.FaultSet.{SourceFault};
ghost use Rattle.proto_compile.specs.Sources.{name_of, text_of};
ghost use Rattle.proto_compile.specs.declared.source.Source.{Source};

/// Sources have one list of the faults that they have by themselves: it has each of them, and no other. So it is empty exactly where
/// there is none.
pub fn file_faults_are_all()
    ensures one_list { (limits : Limits) (files : List Source) (xs ys : List SourceFault)
        → AreFileFaults limits files xs → AreFileFaults limits files ys → xs ≡ ys }
    ensures every { (limits : Limits) (files : List Source) (xs : List SourceFault) (s : Source)
        (x : SourceFault) → AreFileFaults limits files xs → Contains files s → HasFault limits s x
        → Contains xs x }
    ensures no_other { (limits : Limits) (files : List Source) (xs : List SourceFault)
        (x : SourceFault) → AreFileFaults limits files xs → Contains xs x
        → (s : Source) × Contains files s × HasFault limits s x }
{}

/// The place of a fault lies within the text of its file, where no two files have one name, and within the limit of texts.
pub fn file_faults_are_placed()
    ensures { (limits : Limits) (files : List Source) (xs : List SourceFault) (x : SourceFault)
        (s : Source) → NamesDiffer files → AreFileFaults limits files xs → Contains xs x
        → Contains files s → name_of s ≡ x.file
        → (x.place.offset ≤ length (text_of s))
        × (x.place.offset ≤ limit_of limits limit.FileBytes) }
{}
