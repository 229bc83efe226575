//! Laws of hints. Each function does nothing: its contract is the law, and is proved.
ghost use Rattle.std.specs.Prelude.{◌≡◌, ◌≤◌, codes, length};
ghost use Rattle.std.specs.Fmt.{decimal};
ghost use Rattle.iso_explain_block.specs.BlockFaults.{hints};
ghost use Rattle.iso_explain_block.specs.Views.{BlockFaultView};
ghost use Rattle.iso_model.specs.declared.limits.TheConstants.{BLOCK_STEPS, KEY_BYTES, OUTPUT_BYTES, TEXT_BYTES};

/// A fault has four lines at most.
pub fn hints_are_few()
    ensures { (fault : BlockFaultView) → length (hints fault) ≤ 4 }
{}

/// The figures of the lines are the limits.
pub fn figures_are_the_limits()
    ensures steps { decimal BLOCK_STEPS ≡ codes "10000" }
    ensures output { decimal OUTPUT_BYTES ≡ codes "65536" }
    ensures text { decimal TEXT_BYTES ≡ codes "4096" }
    ensures key { decimal KEY_BYTES ≡ codes "255" }
{}
