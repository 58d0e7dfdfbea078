//! What holds of the lines and the text of every block.
ghost use Rattle.std.specs.Prelude.{◌≡◌, ℕ, ◌++◌, List, length};
ghost use Rattle.text_terms.specs.Lines.{LineText, lines_of};
ghost use Rattle.text_terms.specs.Faults.{HasNoFault};
ghost use Rattle.cover_certificate.specs.declared.block.BlockCause.{BlockCause};
ghost use Rattle.cover_certificate.specs.Blocks.{BlockValue, IsValidBlock};
ghost use Rattle.cover_certificate.specs.BlockLines.{IsTypedBlock, block_lines, block_text};
ghost use Rattle.cover_certificate.specs.BlockFaults.{IsBlockFault, fault_at};
ghost use Rattle.cover_certificate.specs.BlocksTold.{block_in};

/// The lines of a block's text are the block's, whatever follows it, and none of them is faulty, so it
/// is read again. The lines tell the block, so a text is that of one block alone.
pub fn block_law()
    ensures lines { (block : BlockValue) (rest : List ℕ) → IsValidBlock block → IsTypedBlock block
        → lines_of (block_text block ++ rest) ≡ block_lines block ++ lines_of rest }
    ensures again { (block : BlockValue) (rest : List LineText) → IsValidBlock block → IsTypedBlock block
        → HasNoFault (fault_at (block_lines block ++ rest)) (length (block_lines block ++ rest)) }
    ensures tell { (block : BlockValue) (rest : List LineText) → IsValidBlock block → IsTypedBlock block
        → block_in (block_lines block ++ rest) ≡ block }
    ensures once { (block other : BlockValue) (rest more : List LineText) → IsValidBlock block → IsTypedBlock block
        → IsValidBlock other → IsTypedBlock other → block_lines block ++ rest ≡ block_lines other ++ more
        → (block ≡ other) × (rest ≡ more) }
    ensures text { (block other : BlockValue) (rest more : List ℕ) → IsValidBlock block → IsTypedBlock block
        → IsValidBlock other → IsTypedBlock other → block_text block ++ rest ≡ block_text other ++ more
        → (block ≡ other) × (rest ≡ more) }
{}

/// Lines that begin with those of a block have no fault of a certificate, and a fault is the only one.
pub fn fault_law()
    ensures excludes { (block : BlockValue) (lines rest : List LineText) (passed number : ℕ) (cause : BlockCause)
        → IsValidBlock block → IsTypedBlock block → lines ≡ block_lines block ++ rest
        → IsBlockFault lines passed number cause → ⊥ }
    ensures single { (lines : List LineText) (passed p q : ℕ) (c d : BlockCause)
        → IsBlockFault lines passed p c → IsBlockFault lines passed q d → (p ≡ q) × (c ≡ d) }
{}
