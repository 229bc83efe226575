//! What mends worlds.
ghost use Rattle.std.specs.Prelude.{◌≡◌, None, OnOk, Some};
ghost use Rattle.std.specs.Str.{IsUtf8};
ghost use Rattle.iso_explain_settings.specs.Explanations.{IsExplained};
ghost use Rattle.iso_explain_settings.specs.Refusals.{IsRefusal};
ghost use Rattle.iso_explain_settings.specs.Told.{Adds};
ghost use Rattle.iso_settings.specs.declared.fault.SettingsFault.TheVariants.{NotToml};
ghost use Rattle.toml.specs.Data.{Members};
ghost use Rattle.toml.specs.Parse.{parse_document};

use crate::explain::explain;
use crate::wanted::File;
use iso_settings::fault::SettingsFault;
use iso_tap::memory::MemorySink;
use std::alloc::{AllocError, Global};

/// Adds what mends a fault of a world to a text: lines for people. After running out of memory the
/// text is of no use.
pub fn explain_world(
    alloc: Global,
    name: &str,
    bytes: &[u8],
    fault: &SettingsFault,
    text: &mut MemorySink,
) -> Result<(), AllocError>
    // Of a document it is told what stands at the fault's key, what the key takes, and what mends
    // it.
    ensures found { (document : Members) → IsUtf8 bytes.now → parse_document bytes.now
        ≡ Some document
        → OnOk result (IsExplained File.World fault.now document text.old text.new) }
    // Of bytes that are none it is told where the parser stops.
    ensures refused { fault.now ≡ NotToml → (IsUtf8 bytes.now → parse_document bytes.now ≡ None)
        → OnOk result (Adds text.old text.new (IsRefusal name.now bytes.now)) }
{
    explain(alloc, File::World, name, bytes, fault, text)
}
