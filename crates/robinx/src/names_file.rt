//! The names of an instance file.
ghost use Rattle.std.specs.Prelude.{◌≡◌, ◌≤◌, length, IfErr, IfOk};
ghost use Rattle.robinx.specs.Pieces.{pieces};
ghost use Rattle.robinx.specs.InstanceFile.{instance_of};
ghost use Rattle.robinx.specs.Answers.{Says};
ghost use Rattle.robinx.specs.declared.fault.ReadFault.TheVariants as faults;
ghost use Rattle.robinx.specs.Names.{IsNames};
ghost use Rattle.robinx.specs.Walk.{reading};
ghost use Rattle.robinx.specs.declared.element.Element.TheVariants.{InstanceFile};
ghost use Rattle.robinx.specs.NamesFile.{names_meaning, names_of};

use crate::Names;
use crate::element::Element;
use crate::fault::ReadFault;
use crate::instance::INSTANCE_LIMIT;
use crate::reader::TagReader;
use crate::roll::Roll;
use crate::walk::read_file;
use league::League;
use std::alloc::{AllocError, Global};

/// The names that an instance file gives, where these are known before it.
fn filled(alloc: Global, bytes: &[u8], roll: Roll) -> Result<Names, ReadFault>
    requires { length bytes.now ≤ INSTANCE_LIMIT }
    ensures { Says (reading names_meaning InstanceFile roll (pieces bytes.now)) result }
{
    let mut roll = roll;
    read_file(
        alloc,
        TagReader::new(bytes),
        Element::InstanceFile,
        &mut roll,
    )?;
    match roll.into_names(alloc) {
        Ok(names) => Ok(names),
        Err(AllocError) => Err(ReadFault::Mem),
    }
}

/// The names that an instance file of at most `INSTANCE_LIMIT` bytes gives the teams and the slots of this league, which
/// are the file's where the file says the league: `publicName` of `<team>` and `<slot>` where a tag has it, else `name`,
/// each as it is printed (`plain_name`).
///
/// # Errors
/// `Form` where the file has a fault of form, though not where it says the league; `Mem` where memory runs out.
pub fn read_names(alloc: Global, bytes: &[u8], league: &League) -> Result<Names, ReadFault>
    requires { length bytes.now ≤ INSTANCE_LIMIT }
    ensures value { Says (names_of league.now.n (pieces bytes.now)) result }
    ensures counts { IfOk result (IsNames league.now.n) }
    ensures whole { instance_of (pieces bytes.now) ≡ Ok league.now → IfErr result (λ fault. fault ≡ faults.Mem) }
{
    match Roll::new(alloc, league.n()) {
        Ok(roll) => filled(alloc, bytes, roll),
        Err(AllocError) => Err(ReadFault::Mem),
    }
}
