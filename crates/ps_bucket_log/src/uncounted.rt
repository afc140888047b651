//! What is asked of a log by who counts no steps: they are counted in a ledger of their own, which is let go.

ghost use Rattle.std.specs.Prelude.{◌≡◌, ◌<◌, length, IfOk};
ghost use Rattle.ps_bucket_log.specs.Batches.{batch_of};
ghost use Rattle.ps_bucket_log.specs.Ops.{newest, sum_of, upto as up_to};

use crate::batches::Batch;
use crate::logs::Log;
use crate::steps::Steps;
use ps_checksum::Sum;
use ps_data::{Memory, OpId};
use std::alloc::Global;
use std::marker::Brand;
use std::sync::ledger::{Blank, Ledger};

fn read_in<G: Log, L: Ledger>(
    alloc: Global,
    log: &G,
    after: OpId,
    upto: OpId,
    blank: Blank,
) -> Result<Batch, Memory>
    requires name { blank.name ≡ L.name }
    requires parts { blank.parts ≡ L.parts }
    requires some { 0 < blank.parts }
    ensures { IfOk result (λ batch. batch ≡ batch_of after.0 upto.0 (G.ops log.now)) }
{
    let mut steps = Steps::<L>::new(blank);
    log.read(alloc, after, upto, &mut steps)
}

/// `Log::read`, with steps that nobody counts.
pub fn read<G: Log>(alloc: Global, log: &G, after: OpId, upto: OpId) -> Result<Batch, Memory>
    ensures { IfOk result (λ batch. batch ≡ batch_of after.0 upto.0 (G.ops log.now)) }
{
    read_in::<G, Brand>(alloc, log, after, upto, Blank::new(1))
}

fn sum_in<G: Log, L: Ledger>(log: &G, upto: OpId, blank: Blank) -> Sum
    requires name { blank.name ≡ L.name }
    requires parts { blank.parts ≡ L.parts }
    requires some { 0 < blank.parts }
    ensures { result.0 ≡ sum_of (up_to upto.0 (G.ops log.now)) }
{
    let mut steps = Steps::<L>::new(blank);
    log.sum_upto(upto, &mut steps)
}

/// `Log::sum_upto`, with steps that nobody counts.
pub fn sum_upto<G: Log>(log: &G, upto: OpId) -> Sum
    ensures { result.0 ≡ sum_of (up_to upto.0 (G.ops log.now)) }
{
    sum_in::<G, Brand>(log, upto, Blank::new(1))
}

fn count_in<G: Log, L: Ledger>(log: &G, upto: OpId, blank: Blank) -> u64
    requires name { blank.name ≡ L.name }
    requires parts { blank.parts ≡ L.parts }
    requires some { 0 < blank.parts }
    ensures { result ≡ length (up_to upto.0 (G.ops log.now)) }
{
    let mut steps = Steps::<L>::new(blank);
    log.count_upto(upto, &mut steps)
}

/// `Log::count_upto`, with steps that nobody counts.
pub fn count_upto<G: Log>(log: &G, upto: OpId) -> u64
    ensures { result ≡ length (up_to upto.0 (G.ops log.now)) }
{
    count_in::<G, Brand>(log, upto, Blank::new(1))
}

fn newest_in<G: Log, L: Ledger>(log: &G, upto: OpId, blank: Blank) -> OpId
    requires name { blank.name ≡ L.name }
    requires parts { blank.parts ≡ L.parts }
    requires some { 0 < blank.parts }
    ensures { result.0 ≡ newest (up_to upto.0 (G.ops log.now)) }
{
    let mut steps = Steps::<L>::new(blank);
    log.newest_upto(upto, &mut steps)
}

/// `Log::newest_upto`, with steps that nobody counts.
pub fn newest_upto<G: Log>(log: &G, upto: OpId) -> OpId
    ensures { result.0 ≡ newest (up_to upto.0 (G.ops log.now)) }
{
    newest_in::<G, Brand>(log, upto, Blank::new(1))
}
