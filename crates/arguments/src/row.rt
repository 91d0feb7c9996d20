//! Defines rows: the arguments that a call takes.
ghost use Rattle.std.specs.Prelude.{◌≡◌, flat_map, map};
ghost use Rattle.arguments.specs.Row.{leaving_out, row, with_others};
ghost use Rattle.arguments.specs.RowView.{keyword_data, row_data};

/// Says what an argument must be.
#[derive(Clone, Copy)]
pub enum ArgumentKind {
    Any,
    Boolean,
    Integer,
    Text,
    IntegerOrText,
    /// A text, an integer or a boolean, which configuration data can contain.
    Setting,
    /// A feature or a boolean: the keyword `required`.
    Requirement,
    /// A text, or a list of texts of any depth.
    Texts,
    Dictionary,
    /// A dictionary, a text, or a list of texts of any depth.
    TextsOrDictionary,
    ConfigurationData,
    /// Configuration data or a dictionary.
    Configuration,
    /// A file.
    File,
    /// Something that a test can run: a program, a target, an output of one or a file.
    Command,
    /// One of these, or a list of them of any depth.
    Flat(Piece),
}

/// Says what may be in a list of any depth.
#[derive(Clone, Copy)]
pub enum Piece {
    /// A text or a file.
    Path,
    /// A text, a file, a custom target or an output of one.
    Source,
    /// A text or an object of `include_directories`.
    Folder,
    /// An executable or a library.
    BuildTarget,
    /// An object of `dependency` or `declare_dependency`.
    Dependency,
    /// A target, or an output of a custom target.
    Target,
    /// A text, a file, a target or an output of a custom target.
    Word,
    /// A text, a file, a target, an output of a custom target or a program.
    CommandWord,
}

/// Describes a keyword that a call takes: its name, and what its value must be.
#[derive(Clone, Copy)]
pub enum Keyword {
    /// A keyword that is optional.
    Optional(&'static str, ArgumentKind),
    /// A keyword that is required.
    Needed(&'static str, ArgumentKind),
}

impl Keyword {
    /// Returns the name.
    pub fn name(self) -> &'static str
        ensures { result.now ≡ (keyword_data self).name }
    {
        match self {
            Keyword::Optional(name, _) | Keyword::Needed(name, _) => name,
        }
    }

    /// Returns what the value must be.
    pub fn kind(self) -> ArgumentKind
        ensures { result ≡ (keyword_data self).kind }
    {
        match self {
            Keyword::Optional(_, kind) | Keyword::Needed(_, kind) => kind,
        }
    }

    /// Returns whether the keyword is required.
    pub fn is_needed(self) -> bool
        ensures { result ≡ (keyword_data self).is_needed }
    {
        matches!(self, Keyword::Needed(_, _))
    }
}

/// Describes the arguments that a call takes, as in an entry of the page "Reference manual".
#[derive(Clone, Copy)]
pub struct Row {
    /// The kinds of the positional arguments.
    pub positional: &'static [ArgumentKind],
    /// How many of them are needed.
    pub needed: usize,
    /// The kind of further positional arguments, if there may be any.
    pub others: Option<ArgumentKind>,
    /// The keywords, in several lists.
    pub keywords: &'static [&'static [Keyword]],
    /// The keywords that are not supported, in addition to those that no call supports.
    pub left_out: &'static [&'static str],
}

impl Row {
    /// Returns a row with these positional arguments, of which the first `needed` are needed, and the keywords of these lists.
    pub fn of(
        positional: &'static [ArgumentKind],
        needed: usize,
        keywords: &'static [&'static [Keyword]],
    ) -> Row
        ensures { row_data result ≡ row positional.now needed (flat_map (λ ks. map keyword_data ks.now) keywords.now) }
    {
        Row {
            positional,
            needed,
            others: None,
            keywords,
            left_out: &[],
        }
    }

    /// Returns a row that also takes any number of further arguments after the positional ones.
    pub fn with_others(self, kind: ArgumentKind) -> Row
        ensures { row_data result ≡ with_others kind (row_data self) }
    {
        Row {
            others: Some(kind),
            ..self
        }
    }

    /// Returns a row in which these keywords are not supported, in addition to those that no call supports.
    pub fn leaving_out(self, names: &'static [&'static str]) -> Row
        ensures { row_data result ≡ leaving_out (map (λ n. n.now) names.now) (row_data self) }
    {
        Row {
            left_out: names,
            ..self
        }
    }
}
