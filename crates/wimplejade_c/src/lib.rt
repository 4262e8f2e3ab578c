// The exported calls for programs in C and Rust: each is the call of its name in `wimplejade`, with its clauses.
// They stand here once more because a crate is a library or a static library, and a clause is of its own function.
#![tactic(auto)]

ghost use Rattle.model.specs.Working.{six};
ghost use Rattle.order.specs.Demands as order;
ghost use Rattle.why.specs.Demands.{KeptPromise};
ghost use Rattle.wimplejade.specs.Reply.{Replies, SweepReplies};

use explain::Reasons;
use model::Row;
use precedence::Late;
use wimplejade::{Reply, SweepReply};

// Picks the kept lines of each ask of a file into the result slice, list after list, or refuses.
#[unsafe(no_mangle)]
pub extern "C" fn wimplejade_filter(
    file: &[u8],
    working0: &mut [u32],
    working1: &mut [u32],
    working2: &mut [u32],
    working3: &mut [u32],
    working4: &mut [u32],
    working5: &mut [u32],
    res: &mut [u32],
) -> Reply
    ensures { Replies result (λ a. record {
      file = file.entry.now;
      lent = six working0.old working1.old working2.old working3.old
          working4.old working5.old;
      out = res.old;
      answer = a;
      left = six working0.new working1.new working2.new working3.new
          working4.new working5.new;
      out' = res.new;
    }) }
{
    wimplejade::wimplejade_filter(
        file, working0, working1, working2, working3, working4, working5, res,
    )
}

// Picks the kept lines as `wimplejade_filter` does, by the second engine, and tells its passes for each ask, or refuses.
#[unsafe(no_mangle)]
pub extern "C" fn wimplejade_sweep(
    file: &[u8],
    working0: &mut [u32],
    working1: &mut [u32],
    working2: &mut [u32],
    working3: &mut [u32],
    working4: &mut [u32],
    working5: &mut [u32],
    res: &mut [u32],
) -> SweepReply
    ensures { SweepReplies result (λ a. record {
      file = file.entry.now;
      lent = six working0.old working1.old working2.old working3.old
          working4.old working5.old;
      out = res.old;
      answer = a;
      left = six working0.new working1.new working2.new working3.new
          working4.new working5.new;
      out' = res.new;
    }) }
{
    wimplejade::wimplejade_sweep(
        file, working0, working1, working2, working3, working4, working5, res,
    )
}

// Fills the table from its start with a row for each reached fact at a position of a file and each of its listed names met by
// its round, and counts the names met, or refuses.
#[unsafe(no_mangle)]
pub extern "C" fn wimplejade_why(
    file: &[u8],
    position: usize,
    working0: &mut [u32],
    working1: &mut [u32],
    working2: &mut [u32],
    working3: &mut [u32],
    working4: &mut [u32],
    working5: &mut [u32],
    rows: &mut [Row],
) -> Reasons
    ensures { KeptPromise (record {
      file = file.entry.now;
      position = position;
      lent = six working0.old working1.old working2.old working3.old
          working4.old working5.old;
      table = rows.old;
      answer = result;
      left = six working0.new working1.new working2.new working3.new
          working4.new working5.new;
      table' = rows.new;
    }) }
{
    wimplejade::wimplejade_why(
        file, position, working0, working1, working2, working3, working4, working5, rows,
    )
}

// Lists in the table, from its start, each name of the body of a definition whose def or fun stands on the same or a later
// line, or that has neither, or refuses.
#[unsafe(no_mangle)]
pub extern "C" fn wimplejade_order(
    file: &[u8],
    working0: &mut [u32],
    working1: &mut [u32],
    working2: &mut [u32],
    working3: &mut [u32],
    working4: &mut [u32],
    working5: &mut [u32],
    rows: &mut [Row],
) -> Late
    ensures { order.KeptPromise (record {
      file = file.entry.now;
      lent = six working0.old working1.old working2.old working3.old
          working4.old working5.old;
      table = rows.old;
      answer = result;
      left = six working0.new working1.new working2.new working3.new
          working4.new working5.new;
      table' = rows.new;
    }) }
{
    wimplejade::wimplejade_order(
        file, working0, working1, working2, working3, working4, working5, rows,
    )
}
