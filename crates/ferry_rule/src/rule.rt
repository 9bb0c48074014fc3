//! The ferry rule.
use crate::terms::Terms;
use chart::FinishedChart;

/// The ferry rule: a chart for the ways, and terms.
#[derive(Drop)]
pub struct FerryRule {
    pub(crate) chart: FinishedChart,
    pub(crate) terms: Terms,
}
