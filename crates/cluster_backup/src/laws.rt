// What a backup has after any list of packets.
ghost use Rattle.std.specs.Prelude.{◌≡◌, ℕ, List};
ghost use Rattle.entry_log.specs.Log.{Log, IsPrefixOf, Rises};
ghost use Rattle.member_disk.specs.Kept.{Kept};
ghost use Rattle.cluster_backup.specs.Copying.{ArePiecesOf, EndWithin, GrewByBatches, TookAll};

/// Whatever bytes a backup takes, one after the other, and wherever a stop cuts a call off: its log only grows, by
/// batches that fit, its terms don't fall, every snapshot on its disk ends within its log, and it votes for nobody new.
/// And if each packet with entries was a piece of one log, of which its own was a front, its own is a front of it still.
pub fn a_backup_copies_one_log()
    ensures grows { (packets : List (List ℕ)) (old new : Kept) → TookAll packets old new → GrewByBatches old.log new.log }
    ensures rises { (packets : List (List ℕ)) (old new : Kept) → TookAll packets old new → Rises old.log → Rises new.log }
    ensures within { (packets : List (List ℕ)) (old new : Kept) → TookAll packets old new → EndWithin old → EndWithin new }
    ensures front { (packets : List (List ℕ)) (old new : Kept) (whole : Log) → TookAll packets old new → ArePiecesOf whole packets → IsPrefixOf old.log whole → IsPrefixOf new.log whole }
    ensures votes { (packets : List (List ℕ)) (old new : Kept) → TookAll packets old new → new.node ≡ old.node }
{}
