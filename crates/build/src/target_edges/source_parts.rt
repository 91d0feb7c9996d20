//! Computes the parts of a source's compile edge that no other edge shares.
ghost use Rattle.std.specs.Prelude.{◌≡◌, ◌++◌, map, IfOk, string_bytes, codes};
ghost use Rattle.build.specs.edge.Own.{own_view};
ghost use Rattle.build.specs.edge.Paths.{object_path};
ghost use Rattle.build.specs.target_edges.Parts.{last_words};

use crate::Input;
use crate::edge::{OwnParts, object_path};
use crate::target_edges::words::join;
use std::alloc::{AllocError, Global};

/// Holds the texts of a source's compile edge that no other edge has.
#[derive(Drop)]
pub struct SourceTexts {
    pub object: String,
    pub depfile: String,
    pub description: String,
}

/// Returns the texts of an input, for the target whose file is `file`.
pub fn source_texts(alloc: Global, file: &str, input: &Input) -> Result<SourceTexts, AllocError>
    ensures object { IfOk result (λ t. string_bytes t.object ≡ object_path file.now (string_bytes input.now.name)) }
    ensures depfile { IfOk result (λ t. string_bytes t.depfile ≡ object_path file.now (string_bytes input.now.name) ++ codes ".d") }
    ensures description { IfOk result (λ t. string_bytes t.description
        ≡ codes "Compiling C object " ++ object_path file.now (string_bytes input.now.name)) }
{
    let object = object_path(alloc, file, &input.name)?;
    let depfile = join(alloc, &object, ".d")?;
    let description = join(alloc, "Compiling C object ", &object)?;
    Ok(SourceTexts {
        object,
        depfile,
        description,
    })
}

/// Returns the words after those that the compile edges of a target share.
pub fn last_words<'a>(texts: &'a SourceTexts, source: &'a str) -> [&'a str; 7]
    ensures { map (λ w. w.now) result ≡ last_words (string_bytes texts.now.object) (string_bytes texts.now.depfile) source.now }
{
    let object = texts.object.as_str();
    [
        object,
        "-MF",
        texts.depfile.as_str(),
        "-o",
        object,
        "-c",
        source,
    ]
}

/// Returns the edge's own parts, with these last words.
pub fn own_parts<'a>(texts: &'a SourceTexts, source: &'a str, words: &'a [&'a str]) -> OwnParts<'a>
    ensures { own_view result ≡ record {
      output = string_bytes texts.now.object;
      input = source.now;
      words = map (λ w. w.now) words.now;
      description = string_bytes texts.now.description;
      depfile = string_bytes texts.now.depfile;
    } }
{
    OwnParts {
        output: &texts.object,
        input: source,
        words,
        description: &texts.description,
        depfile: &texts.depfile,
    }
}
