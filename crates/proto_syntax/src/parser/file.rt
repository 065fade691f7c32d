//! Files and their statements (proto3 language specification, "Proto File").

ghost use Rattle.proto_syntax.specs.Grammar.{Many};
ghost use Rattle.proto_syntax.specs.Reading.{ended, read};
ghost use Rattle.proto_syntax.specs.Language.{file, message, statement, «package», import, syntax};
ghost use Rattle.proto_syntax.specs.Trees.{file_tree, row, statement_tree, package_tree, import_tree, syntax_tree};
ghost use Rattle.proto_syntax.specs.Gives.{Gives, Reads, spellings};

use crate::parser::Parser;
use crate::parser::rule::Parse;
use crate::parser::stop::Stop;
use proto_base::row::Row;
use proto_tree::{FileTree, Import, Package, Statement, Syntax};

impl<'s, 't> Parser<'s, 't> {
    /// The `syntax` statement.
    #[tactic(auto, unfolding(crate::specs::Language::syntax))]
    fn syntax(&mut self) -> Result<Syntax<'s>, Stop>
        ensures { Reads syntax_tree syntax result self.old.rest.now self.new.rest.now }
    {
        let keyword = self.keyword("syntax")?;
        let equals = self.symbol('=')?;
        let (version, semicolon) = self.closed(';')?;
        Ok(Syntax {
            keyword,
            equals,
            version,
            semicolon,
        })
    }

    /// A statement of a file.
    #[tactic(auto, using(crate::proofs::Levels::begins_words, crate::proofs::Levels::begins_option, crate::proofs::Levels::begins_message))]
    fn statement(&mut self, depth: u64) -> Result<Statement<'s>, Stop>
        ensures { Reads statement_tree (statement (message depth)) result self.old.rest.now
            self.new.rest.now }
    {
        if self.at_keyword("import") {
            return self.boxed().map(Statement::Import);
        }
        if self.at_keyword("package") {
            return self.boxed().map(Statement::Package);
        }
        if self.at_keyword("option") {
            return self.boxed().map(Statement::Option);
        }
        if self.at_keyword("message") {
            return self.message(depth).map(Statement::Message);
        }
        if self.at_keyword("enum") {
            return self.boxed().map(Statement::Enum);
        }
        if self.at_keyword("service") {
            return self.boxed().map(Statement::Service);
        }
        let span = self.symbol(';')?;
        Ok(Statement::Empty(span))
    }

    /// The statements up to the end of the tokens.
    #[tactic(auto, using(crate::proofs::Loops::ends_none))]
    fn statements(&mut self, depth: u64) -> Result<Vec<Statement<'s>>, Stop>
        ensures { Gives (λ v. row statement_tree v.items) result self.new.rest.now
            (ended (read (Many (statement (message depth))) (spellings self.old.rest.now))) }
    {
        let mut statements = Vec::new(self.alloc);
        'each: while !self.rest.is_empty() {
            let statement = self.statement(depth)?;
            statements.push(statement)?;
        }
        Ok(statements)
    }

    /// A file, whose messages have at most that depth.
    #[tactic(auto, using(crate::proofs::Loops::ended_mapped), unfolding(crate::specs::Language::file))]
    pub(crate) fn file(&mut self, depth: u64) -> Result<FileTree<'s>, Stop>
        ensures { Gives file_tree result self.new.rest.now
            (ended (read (file depth) (spellings self.old.rest.now))) }
    {
        let syntax = self.syntax()?;
        let statements = self.statements(depth)?;
        Ok(FileTree {
            syntax,
            statements: Row::from_vec(statements),
        })
    }
}

impl<'s> Parse<'s> for Import<'s> {
    ghost rule = { import };

    ghost tree = { import_tree };

    #[tactic(auto, unfolding(crate::specs::Language::import))]
    fn parse(parser: &mut Parser<'s, '_>) -> Result<Self, Stop> {
        let keyword = parser.keyword("import")?;
        let public = parser.optional_keyword("public");
        let (path, semicolon) = parser.closed(';')?;
        Ok(Import {
            keyword,
            public,
            path,
            semicolon,
        })
    }
}

impl<'s> Parse<'s> for Package<'s> {
    ghost rule = { «package» };

    ghost tree = { package_tree };

    fn parse(parser: &mut Parser<'s, '_>) -> Result<Self, Stop> {
        let keyword = parser.keyword("package")?;
        let name = parser.full_name()?;
        let semicolon = parser.symbol(';')?;
        Ok(Package {
            keyword,
            name,
            semicolon,
        })
    }
}
