//! A walk along a script.

use crate::picking::Picking;
use crate::run::Run;
use dds_base::items::Items;
use dds_cluster::queue::Queue;
use dds_cluster::step::{Journal, Step};
use dds_transcript::report_line::{OrderKind, ReportLine};

/// How the journal that a walk follows has the step that the script determines: next, or behind a stop of the step's own
/// node, or not.
#[derive(Clone, Copy, PartialEq, Eq, Debug)]
pub enum Lead {
    Astray,
    Next,
    Behind,
}

/// How far a script was walked: the run so far, the order that is open at each brick, how many call lines each caller
/// had, the picker, what is left of the journal that the walk follows (a walk that follows none makes the steps that
/// the script determines), the steps made, and the lines printed.
#[derive(Drop)]
pub struct Walk {
    pub trace: Run,
    pub orders: Items<Option<OrderKind>>,
    pub counts: Items<u32>,
    pub picking: Picking,
    pub rest: Option<Queue<Step>>,
    pub steps: Journal,
    pub lines: Items<ReportLine>,
}
