//! The text of an instance file.
ghost use Rattle.std.specs.Prelude.{◌≡◌, ◌≤◌, ◌++◌, IfOk, OnOk, Ok, codes};
ghost use Rattle.std.specs.List.{flat_map, range_with_len};
ghost use Rattle.robinx.specs.Pieces.{pieces};
ghost use Rattle.robinx.specs.InstanceFile.{instance_of};
ghost use Rattle.robinx.specs.Texts as texts;
ghost use Rattle.robinx.specs.Texts.{id_line, head_text, season_text, instance_text as text_of};

use crate::write_constraints::put_constraints;
use crate::write_tag::{NamedValue, Value, put_tag};
use league::{League, slot_count};
use std::alloc::{AllocError, Global};

/// The front of an instance file, up to its format.
const FRONT: &[u8] =
    b"<?xml version=\"1.0\" encoding=\"UTF-8\"?>\n<Instance>\n<Structure>\n<Format leagueIds=\"0\">\n";

/// A compact double round robin, up to its game mode.
const FORMAT: &[u8] =
    b"<numberRoundRobin>2</numberRoundRobin>\n<compactness>C</compactness>\n<gameMode>";

/// How a file says whether a league is phased.
fn mode_word(phased: bool) -> &'static str
    ensures { result.now ≡ codes (texts.mode_word phased) }
{
    if phased { "P" } else { "NULL" }
}

/// Adds what stands before the teams.
fn put_head(text: &mut Vec<u8>, phased: bool) -> Result<(), AllocError>
    ensures { OnOk result (text.new.items ≡ text.old.items ++ head_text phased) }
{
    text.extend_from_slice(FRONT)?;
    text.extend_from_slice(FORMAT)?;
    text.extend_from_slice(mode_word(phased).as_bytes())?;
    text.extend_from_slice(b"</gameMode>\n</Format>\n</Structure>\n<Resources>\n<Teams>\n")?;
    Ok(())
}

/// Adds the lines of this many teams or slots.
fn put_ids(text: &mut Vec<u8>, name: &str, count: u16) -> Result<(), AllocError>
    ensures { OnOk result (text.new.items ≡ text.old.items ++ flat_map (id_line name.now) (range_with_len 0 count)) }
{
    for id in 0..count {
        let attributes = [NamedValue("id", Value::Count(u128::from(id)))];
        put_tag(text, name, &attributes)?;
    }
    Ok(())
}

/// Adds the teams and the slots, up to the constraints.
fn put_season(text: &mut Vec<u8>, n: u16) -> Result<(), AllocError>
    requires { n ≤ 40 }
    ensures { OnOk result (text.new.items ≡ text.old.items ++ season_text n) }
{
    put_ids(text, "team", n)?;
    text.extend_from_slice(b"</Teams>\n<Slots>\n")?;
    put_ids(text, "slot", slot_count(n))?;
    text.extend_from_slice(b"</Slots>\n</Resources>\n<Constraints>\n")?;
    Ok(())
}

/// The text of an instance file that says this league.
///
/// # Errors
/// Only where memory runs out.
pub fn instance_text(alloc: Global, league: &League) -> Result<Vec<u8>, AllocError>
    ensures text { IfOk result (λ text. text.items ≡ text_of league.now) }

    // What is written reads back as this league.
    ensures reads_back { IfOk result (λ text. instance_of (pieces text.items) ≡ Ok league.now) }
{
    let mut text = Vec::new(alloc);
    put_head(&mut text, league.phased())?;
    put_season(&mut text, league.n())?;
    put_constraints(&mut text, league.constraints())?;
    text.extend_from_slice(b"</Constraints>\n</Instance>\n")?;
    Ok(text)
}
