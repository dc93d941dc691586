//! A script that keeps its rules.
ghost use Rattle.std.specs.Prelude.{◌≡◌, MatchResult, IfOk};
ghost use Rattle.std.specs.Str.{chars};
ghost use Rattle.script.specs.Clients.{IsNumbered};
ghost use Rattle.script.specs.Posts.{AllPostable};
ghost use Rattle.script.specs.Words.{first_word, after_word};
ghost use Rattle.script.specs.Next.{no_content, IsNext, IsUnfit, names_with};

use crate::content::Content;
use crate::error::{LineError, LineFault};
use crate::form::next_line;
use crate::words::split_word;
use plain_list::Items;
use std::alloc::{AllocError, Global};
use std::marker::Model;
use utf16_text::Text;

/// A script whose clients are numbered from 0 in the order in which their names first stand, and
/// which posts only operations that may be posted as they are.
#[derive(Debug, Drop)]
pub struct Script {
    content: Content,
}

impl Model for Script {
    ghost use Rattle.script.specs.declared.content.Content.{Content};
    ghost use Rattle.script.specs.Clients.{IsNumbered};
    ghost use Rattle.script.specs.Posts.{AllPostable};

    ghost Value = { Content };

    ghost view = { λ s. s.content };

    ghost invariant = { λ s. IsNumbered s.content × AllPostable s.content.lines };
}

impl Script {
    /// The script without a line. Takes no memory.
    pub(crate) fn new(alloc: Global) -> Script
        ensures { result ≡ no_content }
    {
        Script {
            content: Content {
                names: Items::new(alloc),
                lines: Items::new(alloc),
            },
        }
    }

    /// The names and the lines, for reading.
    pub fn content(&self) -> &Content
        ensures value { result.now ≡ self.now }
        ensures clients { IsNumbered result.now }
        ensures posts { AllPostable result.now.lines }
    {
        &self.content
    }

    /// The script with the line of a text at its end.
    pub(crate) fn with(self, alloc: Global, text: &str) -> Result<Script, LineError>
        ensures { MatchResult result (IsNext self (first_word text.now) (after_word text.now))
            (IsUnfit self (first_word text.now) (after_word text.now)) }
    {
        let Script { content } = self;
        let content = content_with(alloc, content, text)?;
        Ok(Script { content })
    }
}

/// The content with the line of a text at its end.
fn content_with(alloc: Global, content: Content, text: &str) -> Result<Content, LineError>
    requires { IsNumbered content }
    ensures { MatchResult result (IsNext content (first_word text.now) (after_word text.now))
        (IsUnfit content (first_word text.now) (after_word text.now)) }
{
    let (word, rest) = split_word(text);
    let Some(line) = next_line(alloc, content.names.as_slice(), word, rest)? else {
        return Err(LineError::Fault(LineFault::Unbuilt));
    };
    let Content { names, mut lines } = content;
    let names = names_with(alloc, names, line.client(), rest)?;
    lines.push(line)?;
    Ok(Content { names, lines })
}

/// The names after a line of this client, whose name stands at the front of the text: with it at the
/// end where the client is the next new one.
fn names_with(
    alloc: Global,
    mut names: Items<Text>,
    client: Option<u32>,
    text: &str,
) -> Result<Items<Text>, AllocError>
    ensures { IfOk result (λ new. new ≡ names_with names client (chars (first_word text.now))) }
{
    let Some(client) = client else {
        return Ok(names);
    };
    if client as usize != names.len() {
        return Ok(names);
    }
    let (name, _) = split_word(text);
    names.push(Text::of(alloc, name)?)?;
    Ok(names)
}
