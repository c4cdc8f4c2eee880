//! What takes the committed transactions of a log.

ghost use Rattle.std.specs.Prelude.{List};
ghost use Rattle.feed_transactions.specs.Changes.{Committed};
ghost use Rattle.feed_change_log.specs.ChangeViews.{RepresentsTransaction};
ghost use Rattle.binlog_feed.specs.Appliers.{AppliesNext};

use feed_change_log::CommittedTransaction;

/// Applies the committed transactions of a log, such as a replica's database.
pub trait Applier {
    /// It applied these transactions so far, in this order.
    ghost has_applied: { Self → List Committed → Type 0 };

    /// Applies the next transaction.
    fn apply(&mut self, transaction: CommittedTransaction<'_>)
        ensures { (t : Committed) → RepresentsTransaction transaction.entry t → AppliesNext has_applied self.old self.new t };
}
