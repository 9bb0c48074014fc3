//! Edges laid by hand, and charts closed and opened again.
use chart::DrawnChart;
use faults::Layer;
use std::process::Abort;
use std::test::Fail;
use walks::Edge;

fn edge(left: u8, right: u8, length: u16, line: usize) -> Edge {
    Edge {
        number: 1,
        left,
        right,
        length,
        line,
    }
}

/// Sees that an edge is refused with this number and place, and that the chart keeps its edges.
fn refuses(
    rt: &impl Abort,
    chart: &mut DrawnChart,
    edge: Edge,
    number: u8,
    place: usize,
) -> Result<(), Fail> {
    let before = chart.edges().len();
    let Err(fault) = chart.lay(edge) else {
        return Err(Fail::new("the edge was laid"));
    };
    assert_eq!(rt; fault.refusal.number(), number);
    assert_eq!(rt; fault, Layer::Edges.fault(fault.refusal, place));
    assert_eq!(rt; fault.layer.word(), "edges");
    assert_eq!(rt; chart.edges().len(), before);
    Ok(())
}

#[test]
fn edges_by_hand(rt: HostRuntime) -> Result<(), Fail> {
    let mut chart = DrawnChart::new(rt.alloc())?;
    assert!(rt; chart.lay(edge(0, 31, 600, 7)).is_ok());
    refuses(&rt, &mut chart, edge(32, 0, 10, 7), 4, 7)?;
    refuses(&rt, &mut chart, edge(0, 255, 10, 8), 4, 8)?;
    refuses(&rt, &mut chart, edge(0, 1, 0, 9), 4, 9)?;
    refuses(&rt, &mut chart, edge(0, 1, 601, 9), 4, 9)?;
    refuses(&rt, &mut chart, edge(5, 5, 10, 70_000), 6, 70_000)?;
    assert_eq!(rt; chart.edges().len(), 1);
    Ok(())
}

#[test]
fn a_full_chart(rt: HostRuntime) -> Result<(), Fail> {
    let mut chart = DrawnChart::new(rt.alloc())?;
    for line in 1..201 {
        assert!(rt; chart.lay(edge(0, 1, 10, line)).is_ok());
    }
    refuses(&rt, &mut chart, edge(0, 1, 10, 201), 5, 0)?;
    refuses(&rt, &mut chart, edge(5, 5, 10, 201), 5, 0)?;
    refuses(&rt, &mut chart, edge(0, 32, 10, 201), 4, 201)
}

#[test]
fn closed_and_opened(rt: HostRuntime) -> Result<(), Fail> {
    let mut chart = DrawnChart::new(rt.alloc())?;
    assert!(rt; chart.lay(edge(0, 1, 10, 1)).is_ok());
    assert!(rt; chart.lay(edge(1, 2, 15, 2)).is_ok());
    assert!(rt; chart.lay(edge(0, 2, 30, 3)).is_ok());
    let finished = chart.close();
    assert_eq!(rt; finished.distance(0, 2), Some(25));
    assert_eq!(rt; finished.distance(2, 0), Some(25));
    assert_eq!(rt; finished.distance(2, 2), Some(0));
    assert_eq!(rt; finished.distance(31, 31), Some(0));
    assert_eq!(rt; finished.distance(0, 3), None);
    assert_eq!(rt; finished.distance(0, 32), None);
    assert_eq!(rt; finished.distance(32, 32), None);
    assert_eq!(rt; finished.distance(255, 0), None);
    let mut again = finished.reopen();
    assert_eq!(rt; again.edges().len(), 3);
    assert!(rt; again.lay(edge(0, 2, 20, 4)).is_ok());
    assert_eq!(rt; again.close().distance(0, 2), Some(20));
    Ok(())
}
