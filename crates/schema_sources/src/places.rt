//! In which folder a source lies.

ghost use Rattle.std.specs.Prelude.{◌≡◌, option_map};
ghost use Rattle.schema_sources.specs.Places.{entry_of, folder_in};

/// A source that lies in another folder than the root.
#[derive(Clone, Copy)]
pub struct Elsewhere<'a> {
    pub name: &'a str,
    pub folder: &'a str,
}

/// In which folders the sources of a run lie.
#[derive(Clone, Copy)]
pub struct Places<'a> {
    pub root: &'a str,
    /// The sources that do not lie in the root.
    pub elsewhere: &'a [Elsewhere<'a>],
}

impl<'a> Places<'a> {
    fn entry_of(&self, name: &str) -> Option<&'a Elsewhere<'a>>
        ensures { option_map (λ entry. entry.now) result ≡ entry_of self.now name.now }
    {
        self.elsewhere.iter().find(|entry| entry.name == name)
    }

    /// The folder in which the source of a name lies.
    pub fn folder_of(&self, name: &str) -> &'a str
        ensures { result.now ≡ folder_in self.now name.now }
    {
        match self.entry_of(name) {
            Some(entry) => entry.folder,
            None => self.root,
        }
    }
}
