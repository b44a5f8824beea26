//! The walk over a graph, written once for every graph.
ghost use Rattle.std.specs.Prelude.{◌≡◌, ◌<◌, ◌≤◌, length};
ghost use Rattle.reach.specs.Marking.{Marks, Searched};

use super::graph::Graph;
use plant::Decline;
use ring::Queue;

// Marks what the graph reaches from `from`, where there is room.
fn mark_from<G: Graph>(graph: &G, n: u8, from: u8, marks: &mut [bool], places: &mut [u8])
    requires { (from < n) × ((n ≤ length marks.old) × (n ≤ length places.old)) }
    ensures { Marks (G.edge graph.now) n from marks.new }
{
    marks.fill(false);
    marks[from as usize] = true;
    let mut queue = Queue::new(places);
    let _ = queue.put(from);
    while let Some(v) = queue.take() {
        for w in 0..n {
            if !marks[w as usize] && graph.leads(v, w) {
                marks[w as usize] = true;
                let _ = queue.put(w);
            }
        }
    }
}

/// Marks just the junctions below `n` that the graph reaches from `from` over junctions below `n`; declines marks or
/// places fewer than `n`, and then changes nothing.
pub fn mark_reached<G: Graph>(
    graph: &G,
    n: u8,
    from: u8,
    marks: &mut [bool],
    places: &mut [u8],
) -> Result<(), Decline>
    ensures walked { Searched (G.edge graph.now) n from marks.old (length places.old) result marks.new }
    ensures kept { (length marks.old < n → places.new ≡ places.old) × (length places.old < n → places.new ≡ places.old) }
{
    if marks.len() < n as usize || places.len() < n as usize {
        return Err(Decline::BufferLength);
    }
    if from < n {
        mark_from(graph, n, from, marks, places);
    } else {
        marks.fill(false);
    }
    Ok(())
}
