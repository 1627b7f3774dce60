//! The settings that open a session.

ghost use Rattle.std.specs.Prelude.{◌≤◌, length};
ghost use Rattle.std.specs.Iterator.{YieldsFirstBy, item_count};
ghost use Rattle.pg_format.specs.Format.Lists.{until_zero};
ghost use Rattle.pg_format.specs.Messages.{setting, startup};
ghost use Rattle.pg_server.specs.Frontend.Message.{GivesAt, ReadsRest};

use crate::frontend::error::FrontendFault;
use crate::frontend::offsets::{end_at, text_at};
use pg_format::text::split_text;
use std::marker::Model;

/// The settings of a Startup in order, each a name and a value.
///
/// In a contract it is the list of the settings that are left.
#[derive(Drop)]
pub struct Settings<'a> {
    // From the next name on.
    rest: &'a [u8],
}

impl<'a> Model for Settings<'a> {
    ghost use Rattle.std.specs.Prelude.{ℕ, List};
    ghost use Rattle.pg_server.specs.Frontend.Lists.{settings_in};

    ghost Value = { List (List ℕ × List ℕ) };

    ghost view = { λ settings. settings_in settings.rest.now };
}

impl<'a> Iterator for Settings<'a> {
    type Item = (&'a [u8], &'a [u8]);

    ghost next_gives = { YieldsFirstBy (λ it. (it.0.now, it.1.now)) (λ settings. settings) };

    ghost remaining = { item_count (λ settings. settings) };

    fn next(&mut self) -> Option<(&'a [u8], &'a [u8])> {
        let (name, after) = split_text(self.rest)?;
        if name.is_empty() {
            return None;
        }
        let (value, rest) = split_text(after)?;
        self.rest = rest;
        Some((name, value))
    }
}

/// The settings from an offset on, up to an empty name, after which nothing follows.
pub(crate) fn all_settings(body: &[u8], at: usize) -> Result<Settings<'_>, FrontendFault>
    requires { at ≤ length body.now }
    ensures { ReadsRest startup (λ settings. settings) body.now at result }
{
    let (settings, end) = settings_at(body, at)?;
    end_at(body, end)?;
    Ok(settings)
}

// The settings at an offset, which an empty name ends.
fn settings_at(body: &[u8], at: usize) -> Result<(Settings<'_>, usize), FrontendFault>
    requires { at ≤ length body.now }
    ensures { GivesAt (until_zero setting) (λ settings. settings) body.now at result }
{
    let mut end = at;
    'settings: loop {
        let (name, after) = text_at(body, end)?;
        if name.is_empty() {
            return Ok((Settings { rest: &body[at..] }, after));
        }
        let (_value, after) = text_at(body, after)?;
        end = after;
    }
}
