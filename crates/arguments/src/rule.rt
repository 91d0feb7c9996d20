//! Defines rules for arguments that no row expresses, and the messages about what breaks them.
ghost use Rattle.std.specs.Prelude.{◌≡◌, IfOk, string_bytes};
ghost use Rattle.arguments.specs.Refused.{breaks, refused_data};
ghost use Rattle.arguments.specs.Rules.{breach_message, told_of};

use crate::refused::ArgumentError;
use std::alloc::{AllocError, Global};
use support::faults::Refusal;

/// Names a rule that a text or the value of a keyword may break.
#[derive(Clone, Copy)]
pub enum Rule {
    /// A text names a file in the source directory.
    NamesFile,
    /// A text names a directory in the source directory.
    NamesFolder,
    /// A name is valid for a target.
    IsTargetName,
    /// A name is valid for a file.
    IsFileName,
    /// A file is a C source or a header.
    IsSource,
    /// The target with this name has a C source.
    HasSource,
    /// A text is a valid version of a library.
    IsLibraryVersion,
    /// A name is valid for a man page.
    IsManPage,
    /// Definition files may assign the variable.
    IsSettable,
    /// A name is valid for a variable.
    IsVariableName,
    /// The program was found whose path the method with this name returns.
    HasProgram,
    /// The target has exactly one output, whose path the method with this name returns.
    HasOneOutput,
    /// A language has a compiler.
    HasCompiler,
    /// The range goes up, from a start that is not negative.
    GoesUp,
    /// A name is valid for configuration data.
    IsValueName,
    /// The name has a value that configuration data can contain.
    IsSetting,
    /// A text is a name and a value with `=` between them.
    IsAssignment,
    /// A keyword takes only libraries.
    TakesLibraries,
    /// A keyword takes only the language C.
    TakesC,
    /// A keyword takes at least one item.
    HasItems,
    /// A keyword takes exactly one output.
    TakesOneOutput,
    /// A keyword is required.
    IsNeeded,
    /// A keyword takes exactly one file.
    TakesOneFile,
    /// A keyword takes a file in the source directory, and no built file.
    TakesTreeFile,
    /// Each placeholder of a keyword has a value, and each program in it was found.
    HasMeaning,
    /// The value of a name is a text.
    TakesText,
    /// The test with this name runs a program that was found.
    RunsProgram,
    /// The test with this name runs no library.
    RunsNoLibrary,
    /// The value of a name can be printed.
    IsPrinted,
    /// The language is C.
    IsC,
    /// There is an option with this name.
    IsOption,
    /// A text names a folder below the present one.
    IsBelow,
    /// The folder was not entered before.
    IsNew,
}

impl Rule {
    // Returns what the text names, and `""` if the message does not say so.
    fn thing(self) -> &'static str
        ensures { result.now ≡ (told_of self).0 }
    {
        match self {
            Rule::TakesLibraries
            | Rule::TakesC
            | Rule::HasItems
            | Rule::TakesOneOutput
            | Rule::IsNeeded
            | Rule::TakesOneFile
            | Rule::TakesTreeFile
            | Rule::HasMeaning => "keyword ",
            Rule::IsC => "language ",
            Rule::IsOption => "option ",
            Rule::IsBelow | Rule::IsNew => "folder ",
            _ => "",
        }
    }

    // Returns what the message says about the text.
    fn words(self) -> &'static str
        ensures { result.now ≡ (told_of self).1 }
    {
        match self {
            Rule::NamesFile => "names no file of the project",
            Rule::NamesFolder => "names no folder of the project",
            Rule::IsTargetName => "is no name of a target",
            Rule::IsFileName => "is no name of a file",
            Rule::IsSource => "is no source of C",
            Rule::HasSource => "has no source of C",
            Rule::IsLibraryVersion => "is no version of a library",
            Rule::IsManPage => "is no name of a man page",
            Rule::IsSettable => "is no name that can be set",
            Rule::IsVariableName => "is no name of a variable",
            Rule::HasProgram => "needs a program that was found",
            Rule::HasOneOutput => "needs a target with one output",
            Rule::HasCompiler => "is no language that has a compiler",
            Rule::GoesUp => "needs a start from 0, a stop from the start and a step from 1",
            Rule::IsValueName => "is no name of a value",
            Rule::IsSetting => "takes a text, an integer or a truth value",
            Rule::IsAssignment => "has no '='",
            Rule::TakesLibraries => "takes libraries",
            Rule::TakesC => "takes 'c'",
            Rule::HasItems => "is empty",
            Rule::TakesOneOutput => "takes one output",
            Rule::IsNeeded => "is missing, and is needed",
            Rule::TakesOneFile => "takes one file",
            Rule::TakesTreeFile => "takes a file of the project",
            Rule::HasMeaning => "has a placeholder or a program without a value",
            Rule::TakesText => "takes a text",
            Rule::RunsProgram => "has a program that was not found",
            Rule::RunsNoLibrary => "runs a library",
            Rule::IsPrinted => "has a value that can't be printed",
            Rule::IsC => "is not C",
            Rule::IsOption => "there is none",
            Rule::IsBelow => "is none below the present one",
            Rule::IsNew => "was entered before",
        }
    }

    /// Returns the message that this text, or the keyword with this name, breaks the rule, as in `'../a.c': names no file of the project`.
    pub fn tell_breach(self, alloc: Global, text: &str) -> Result<String, AllocError>
        ensures { IfOk result (λ words. string_bytes words ≡ breach_message self text.now) }
    {
        let (thing, words) = (self.thing(), self.words());
        format!(in alloc; "{thing}'{text}': {words}")
    }

    /// Returns the refusal of arguments (E9) in which this text, or the keyword with this name, breaks the rule.
    pub fn refuse(self, alloc: Global, text: &str) -> Result<ArgumentError, AllocError>
        ensures { IfOk result (λ refused. refused_data refused ≡ breaks self text.now) }
    {
        let detail = self.tell_breach(alloc, text)?;
        Ok(ArgumentError {
            refusal: Refusal::Arguments,
            detail,
        })
    }
}
