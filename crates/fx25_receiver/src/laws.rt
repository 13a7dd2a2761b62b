//! Laws on the definitions. A law is the contract of a function that does nothing.
ghost use Rattle.std.specs.Prelude.{◌≡◌, ◌+◌, ◌*◌, ◌<◌, ◌≤◌, ◌++◌, ℕ, ℤ, Bool, List, length, map, take};
ghost use Rattle.std.specs.List.{All};
ghost use Rattle.offset_slicers.specs.Windows.{bits};
ghost use Rattle.hdlc_framer.specs.BitOrder.{sent_bits};
ghost use Rattle.hdlc_framer.specs.Frames.{IsFrame};
ghost use Rattle.reed_solomon.specs.Distance.{distance};
ghost use Rattle.fx25_blocks.specs.Blocks.{IsBlockOf, bits_needed};
ghost use Rattle.fx25_blocks.specs.NearTag.{IsNearTag};
ghost use Rattle.fx25_blocks.specs.Tags.{IsTag, block_length, check_count};
ghost use Rattle.fx25_receiver.specs.declared.heard.Heard.{Heard};
ghost use Rattle.fx25_receiver.specs.Damage.{DifferInStretch};
ghost use Rattle.fx25_receiver.specs.Heard.{IsHeard};
ghost use Rattle.fx25_receiver.specs.Held.{Held, StandsFor};
ghost use Rattle.fx25_receiver.specs.Merged.{AreMerged};
ghost use Rattle.fx25_receiver.specs.WithoutBlocks.{HasNoBlock, candidate_of};
ghost use Rattle.frame_merge.specs.Merged.{merged as merged_plainly};
ghost use Rattle.frame_merge.specs.declared.candidate.Candidate.{Candidate};
ghost use Rattle.slicer_bank.specs.Candidates.{AreCandidates};

/// What a receiver has given of samples is exactly what is heard of them, merged.
pub fn given_items_are_merged()
    ensures { (receiver : Held) → (x : List ℤ) → (given : List Heard) → StandsFor receiver x given
        → AreMerged x given }
{}

/// Samples have exactly one list of merged items. With more samples all of it stays, and what is added ends after the
/// first ones: so an item can be given as soon as it has ended.
pub fn merged_items_are_one()
    ensures some { (x : List ℤ) → (items : List Heard) × AreMerged x items }
    ensures one { (x : List ℤ) → (items others : List Heard) → AreMerged x items → AreMerged x others
        → items ≡ others }
    ensures more { (x y : List ℤ) → (items whole : List Heard) → AreMerged x items → AreMerged (x ++ y) whole
        → (added : List Heard) × (whole ≡ items ++ added) × All (λ item. length x < item.end) added }
{}

/// If no block ends in samples, what is heard of them is what the eight lanes hear that read no blocks, merged as those
/// merge: reading blocks only adds frames.
pub fn without_blocks_as_before()
    ensures { (x : List ℤ) → (items : List Heard) → (candidates : List Candidate) → HasNoBlock x
        → AreMerged x items → AreCandidates x candidates → map candidate_of items ≡ merged_plainly candidates }
{}

/// The law of a lane: if its bits so far, the bit `index` being the last, end with a tag of which at most 12 bits are
/// wrong and with the block of a frame of which at most half as many octets are wrong as it has check octets, whatever
/// came before, then that frame is heard with that bit, and no other in a block of that tag.
pub fn near_blocks_are_heard()
    ensures heard { (x : List ℤ) → (item : Heard) → (index : ℕ) → (before heard : List Bool) → (word block : List ℕ)
        → item.lane < 8 → index < length (bits item.lane x)
        → take (index + 1) (bits item.lane x) ≡ before ++ (heard ++ sent_bits word)
        → IsTag item.tag → IsFrame item.octets → IsBlockOf item.tag item.octets block → IsNearTag item.tag heard
        → All (λ octet. octet < 256) word → length word ≡ length block
        → 2 * distance word block ≤ check_count item.tag
        → item.end ≡ item.lane + 8 * (index + 1)
        → item.at + 8 * (8 * block_length item.tag) ≡ item.end + 8 * bits_needed item.octets
        → IsHeard x item }
    ensures only { (x : List ℤ) → (item other : Heard) → IsHeard x item → IsHeard x other → other.end ≡ item.end
        → other.lane ≡ item.lane → other.tag ≡ item.tag → item ≡ other }
{}

/// If a block comes in samples whose bits are those of a frame's block after a tag of which at most 12 bits are wrong,
/// then any one stretch of at most 32c - 71 samples among its data and check octets may be anything, c being the number
/// of its check octets: the frame is heard all the same. So 441, 953 or 1977 samples may be lost, which are 46, 99 or
/// 206 milliseconds.
pub fn one_stretch_of_samples_is_repaired()
    ensures { (x sent : List ℤ) → (item : Heard) → (index start count : ℕ) → (before heard : List Bool)
        → (block : List ℕ) → item.lane < 8 → index < length (bits item.lane sent)
        → take (index + 1) (bits item.lane sent) ≡ before ++ (heard ++ sent_bits block)
        → IsTag item.tag → IsFrame item.octets → IsBlockOf item.tag item.octets block → IsNearTag item.tag heard
        → DifferInStretch start count x sent → item.lane + 8 * (length before + 64) ≤ start
        → count + 71 ≤ 32 * check_count item.tag
        → item.end ≡ item.lane + 8 * (index + 1)
        → item.at + 8 * (8 * block_length item.tag) ≡ item.end + 8 * bits_needed item.octets
        → IsHeard x item }
{}
