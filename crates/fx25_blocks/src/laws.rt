//! Laws on the definitions. A law is the contract of a function that does nothing.

ghost use Rattle.std.specs.Prelude.{◌≡◌, ◌≢◌, ◌+◌, ◌*◌, ◌<◌, ◌≤◌, ◌++◌, ℕ, Bool, List, All, length};
ghost use Rattle.hdlc_framer.specs.BitOrder.{sent_bits};
ghost use Rattle.hdlc_framer.specs.Frames.{IsFrame};
ghost use Rattle.reed_solomon.specs.Distance.{distance};
ghost use Rattle.fx25_blocks.specs.BlockEnds.{CarriesFrame, EndsBlock};
ghost use Rattle.fx25_blocks.specs.Blocks.{IsBlockOf, bits_needed};
ghost use Rattle.fx25_blocks.specs.Damage.{DifferWithin};
ghost use Rattle.fx25_blocks.specs.NearTag.{IsNearTag};
ghost use Rattle.fx25_blocks.specs.Tags.{IsTag, block_length, check_count, differing, tag_bits};
ghost use Rattle.fx25_blocks.specs.UnknownOctets.{ReadsFrame};
ghost use Rattle.fx25_blocks.specs.UnsureBlocks.{EndsUnsureBlock};

/// Any two tags differ in at least 32 bits.
pub fn tags_are_apart()
    ensures { (tag : ℕ) → (other : ℕ) → IsTag tag → IsTag other → tag ≢ other
        → 32 ≤ differing (tag_bits tag) (tag_bits other) }
{}

/// With a bit at most one block of a tag ends, and it carries one frame, which is over at one place.
pub fn one_block_ends()
    ensures { (bits : List Bool) → (tag : ℕ) → (frame : List ℕ) → (other : List ℕ) → (over : ℕ) → (other_over : ℕ)
        → EndsBlock bits tag frame over → EndsBlock bits tag other other_over
        → (frame ≡ other) × (over ≡ other_over) }
{}

/// A tag with at most 12 bits wrong and the block of a frame with at most half as many octets wrong as it has check
/// octets are heard, whatever came before: the block ends with their last bit, it carries that frame, and no other.
pub fn block_is_heard()
    ensures { (before : List Bool) → (heard : List Bool) → (word : List ℕ) → (tag : ℕ) → (frame : List ℕ)
        → (block : List ℕ) → IsTag tag → IsFrame frame → IsBlockOf tag frame block
        → IsNearTag tag heard → All (λ octet. octet < 256) word → length word ≡ length block
        → 2 * distance word block ≤ check_count tag
        → EndsBlock (before ++ (heard ++ sent_bits word)) tag frame (bits_needed frame)
        × ((other : List ℕ) → (over : ℕ) → EndsBlock (before ++ (heard ++ sent_bits word)) tag other over
        → (other ≡ frame) × (over ≡ bits_needed frame)) }
{}

/// A block that is near enough to a codeword as it came, and carries a frame, is read as that frame, however sure its
/// octets are.
pub fn near_block_is_read()
    ensures { (tag : ℕ) → (word : List ℕ) → (certainty : List ℕ) → (frame : List ℕ) → (over : ℕ) → IsTag tag
        → All (λ octet. octet < 256) word → CarriesFrame tag (sent_bits word) frame over → ReadsFrame tag word certainty frame over }
{}

/// A block that ends, near enough to a codeword as it came, ends also if its bits have numbers, whatever these are.
pub fn near_block_ends_too()
    ensures { (bits : List Bool) → (numbers : List ℕ) → (tag : ℕ) → (frame : List ℕ) → (over : ℕ)
        → 8 * block_length tag ≤ length numbers → EndsBlock bits tag frame over
        → EndsUnsureBlock bits numbers tag frame over }
{}

/// With a bit at most one block of a tag ends whose bits have numbers, and it carries one frame, which is over at one
/// place.
pub fn one_unsure_block_ends()
    ensures { (bits : List Bool) → (numbers : List ℕ) → (tag : ℕ) → (frame : List ℕ) → (other : List ℕ)
        → (over : ℕ) → (other_over : ℕ) → EndsUnsureBlock bits numbers tag frame over
        → EndsUnsureBlock bits numbers tag other other_over → (frame ≡ other) × (over ≡ other_over) }
{}

/// A block with octets of any certainty is read as one frame at most, which is over at one place.
pub fn one_frame_is_read()
    ensures { (tag : ℕ) → (word : List ℕ) → (certainty : List ℕ) → (frame : List ℕ) → (other : List ℕ) → (over : ℕ)
        → (other_over : ℕ) → IsTag tag → length word ≡ block_length tag
        → ReadsFrame tag word certainty frame over → ReadsFrame tag word certainty other other_over
        → (frame ≡ other) × (over ≡ other_over) }
{}

/// If the bits of a block came right but for one stretch of at most 4c - 7 bits, c being the number of its check
/// octets, at most half as many octets are wrong as it has check octets.
pub fn one_stretch_is_repaired()
    ensures { (word : List ℕ) → (block : List ℕ) → (tag : ℕ) → (start : ℕ) → (count : ℕ) → IsTag tag
        → All (λ octet. octet < 256) word → All (λ octet. octet < 256) block → length word ≡ length block
        → DifferWithin start count (sent_bits word) (sent_bits block) → count + 7 ≤ 4 * check_count tag
        → 2 * distance word block ≤ check_count tag }
{}
