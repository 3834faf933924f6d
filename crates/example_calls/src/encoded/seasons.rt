//! What a season of four teams makes true, and which games are decoded from that.
ghost use Rattle.std.specs.Prelude.{◌≡◌, length, IfOk};
ghost use Rattle.encoding.specs.Variables.{var_count};

use crate::canonical::boards::show_games;
use crate::encoded::lines::show_variable;
use decoding::{decode, shadow};
use encoding::Encoding;
use robinx::{SOLUTION_LIMIT, read_solution};
use rows::Assignment;
use std::{fs, io};

/// Shows which breaks the shadow of the season of a file has, or which games are decoded from it or from nothing true.
pub fn show(rt: &HostRuntime, encoding: &Encoding, kind: &str, asked: &str) -> io::Result<()> {
    match asked.strip_prefix("of ") {
        Some("nothing") | None => {
            let values = Assignment::new(rt.alloc(), encoding.vars())?;
            show_values(rt, encoding, kind, &values)
        }
        Some(file) => {
            let values = shadow_of(rt, encoding, file)?;
            show_values(rt, encoding, kind, &values)
        }
    }
}

/// Shows which breaks have values that are true, or which games are decoded from the values.
fn show_values(
    rt: &HostRuntime,
    encoding: &Encoding,
    kind: &str,
    values: &Assignment,
) -> io::Result<()>
    requires { length values.now ≡ var_count encoding.now }
{
    match kind {
        "breaks" => show_breaks(rt, encoding, values),
        _ => show_decoded(rt, encoding, values),
    }
}

/// The shadow of the season of a file.
fn shadow_of(rt: &HostRuntime, encoding: &Encoding, file: &str) -> io::Result<Assignment>
    ensures { IfOk result (λ values. length values ≡ var_count encoding.now) }
{
    let bytes = fs::read(rt, file)?;
    let few = bytes.len().min(SOLUTION_LIMIT);
    match read_solution(rt.alloc(), &bytes[..few], encoding.league()) {
        Ok(season) => Ok(shadow(rt.alloc(), encoding, &season)?),
        Err(_) => Err(io::ErrorKind::InvalidData.into()),
    }
}

/// Shows the variables of breaks that are true.
fn show_breaks(rt: &HostRuntime, encoding: &Encoding, values: &Assignment) -> io::Result<()>
    requires { length values.now ≡ var_count encoding.now }
{
    for var in 97..encoding.vars() + 1 {
        if values.value(var) {
            show_variable(rt, encoding, var)?;
        }
    }
    Ok(())
}

/// Shows the games that are decoded from values.
fn show_decoded(rt: &HostRuntime, encoding: &Encoding, values: &Assignment) -> io::Result<()>
    requires { length values.now ≡ var_count encoding.now }
{
    let season = decode(rt.alloc(), encoding, values)?;
    show_games(rt, "", season.games())
}
