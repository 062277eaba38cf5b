//! Laws of the last write and the last read of a key among commits, in whatever order these are looked at.
//!
//! The function does nothing: what it promises is the law.
#![tactic(auto)]

ghost use Rattle.mk_copy_laws.specs.LatestLaws.{LatestWriteIs, LatestReadIs, LatestWriteFound, LatestWriteNone, CopyHoldsLatest};

/// The last write and the last read of a key are those of commits, and whose they are; and the one copy holds the last write.
pub fn latest_commits_stand()
    ensures write_is { LatestWriteIs }
    ensures read_is { LatestReadIs }
    ensures write_found { LatestWriteFound }
    ensures write_none { LatestWriteNone }
    ensures copy_holds { CopyHoldsLatest }
{}
