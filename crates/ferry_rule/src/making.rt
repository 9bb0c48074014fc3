//! The ferry rule, made and made again.
ghost use Rattle.std.specs.Prelude.{◌≡◌, [], IfOk};
ghost use Rattle.ferry_rule.specs.Making.{Remade};

use crate::rule::FerryRule;
use crate::terms::Terms;
use chart::{DrawnChart, FinishedChart};
use faults::{Fault, Layer, Refusal};
use std::alloc::{AllocError, Global};

impl FerryRule {
    /// The built-in rule: a chart without edges, and nothing for lying or for a minute.
    pub fn new(heap: Global) -> Result<FerryRule, AllocError>
        ensures { IfOk result (λ rule. (rule.chart.edges.list.items ≡ []) × (rule.terms.least ≡ 0) × (rule.terms.most ≡ 0) × (rule.terms.factor ≡ 0)) }
    {
        let chart = DrawnChart::new(heap)?.close();
        let terms = Terms {
            least: 0,
            most: 0,
            factor: 0,
        };
        Ok(FerryRule { chart, terms })
    }

    /// Makes the rule again from a chart and terms. Terms out of range are refused, and leave the rule
    /// in force as it was.
    pub fn remake(
        &mut self,
        chart: FinishedChart,
        least: u16,
        most: u16,
        factor: u16,
    ) -> Result<(), Fault>
        ensures { Remade self.old chart least most factor result self.new }
    {
        let refused = Layer::Planner.fault(Refusal::OutOfRange, 0);
        let terms = Terms::new(least, most, factor).ok_or(refused)?;
        *self = FerryRule { chart, terms };
        Ok(())
    }
}
