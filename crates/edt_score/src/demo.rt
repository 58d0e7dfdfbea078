//! A problem made from a number.
ghost use Rattle.std.specs.Prelude.{◌≡◌, ℕ, ◌%◌, ◌<◌, ◌≤◌, [], All, length, map, IfOk, OnOk};
ghost use Rattle.node_boxes.specs.declared.limits.TheConstants.{GREATEST_TIME};
ghost use Rattle.node_boxes.specs.Grid.{node_count};
ghost use Rattle.node_boxes.specs.GridOrder.{all_nodes, node_number};
ghost use Rattle.edt_score.specs.Demo.{cube, demo_field, demo_picks, demo_source, draw, next_state, squared_distance, state_after, station_row, stations, time_over};
ghost use Rattle.edt_score.specs.Problem.{IsValidProblem};
ghost use Rattle.edt_score.specs.Inside.DemoParts.{IsEarlyPick, greatest_square, pick_from, place_drawn, time_from, times_over};

use crate::field::Field;
use crate::problem::{Problem, ProblemPick};
use node_boxes::{Grid, roots};
use pair_weights::ceil_root;
use std::alloc::{AllocError, Global};

const STATIONS: u32 = 12;

/// A problem made from a number, with the field of its travel times.
#[derive(Drop)]
pub struct Demo {
    /// A cube of nodes under one root, with a row of travel times for each of 12 stations.
    pub field: Field,
    /// One pick of each station, in the order of the rows.
    pub problem: Problem,
    /// The number of the source's node.
    pub source: u32,
}

/// A draw of the generator: it sets the state to `state * 6364136223846793005 + 1442695040888963407`
/// modulo 2^64, and answers the upper 32 bits of the new state.
pub fn draw(state: &mut u64) -> u32
    ensures state { state.new ≡ next_state state.old }
    ensures answer { result ≡ draw state.old }
{
    *state = state
        .wrapping_mul(6_364_136_223_846_793_005)
        .wrapping_add(1_442_695_040_888_963_407);
    (*state >> 32) as u32
}

/// The problem that a seed makes in a cube with `side` nodes on each axis.
///
/// Draws of the generator place 12 stations at the surface and a source, and add a noise of 0 to
/// `1000 * (side - 1)` microseconds to each pick. A wave takes 170,000 microseconds from a node to
/// the next. Each pick has the weight 1000 and the variance 20,000,000,000. Running out of memory is the
/// only refusal.
pub fn demo_problem(alloc: Global, seed: u64, side: u32) -> Result<Demo, AllocError>
    requires some { 1 ≤ side }
    requires few { side ≤ 64 }

    // What it makes.
    ensures field { IfOk result (λ demo. demo.field ≡ demo_field seed side) }
    ensures picks { IfOk result (λ demo. demo.problem.picks.items ≡ demo_picks seed side) }
    ensures source { IfOk result (λ demo. demo.source ≡ demo_source seed side) }

    // The problem can be searched, and the source is a node of the cube.
    ensures grid { IfOk result (λ demo. demo.field.grid ≡ cube side) }
    ensures valid { IfOk result (λ demo. IsValidProblem demo.field demo.problem) }
    ensures node { IfOk result (λ demo. demo.source < node_count demo.field.grid) }
{
    let grid = Grid::new(side, side, side).unwrap();
    let roots = roots(alloc, &grid, 1, 1, 1)?;
    let mut field = Field::new(alloc, grid, roots)?;
    let mut state = seed;
    add_stations(alloc, &mut state, side, &mut field)?;
    let source = draw_node(&mut state, &grid);
    let picks = draw_picks(alloc, &mut state, side, &field, source)?;
    Ok(Demo {
        field,
        problem: Problem { picks },
        source,
    })
}

/// A draw modulo `n`.
fn draw_below(state: &mut u64, n: u32) -> u32
    requires some { 1 ≤ n }
    ensures state { state.new ≡ next_state state.old }
    ensures answer { result ≡ draw state.old % n }
    ensures below { result < n }
{
    draw(state) % n
}

/// Adds the rows of 12 stations, each at a place that two draws give.
fn add_stations(
    alloc: Global,
    state: &mut u64,
    side: u32,
    field: &mut Field,
) -> Result<(), AllocError>
    requires some { 1 ≤ side }
    requires few { side ≤ 64 }
    requires cube { field.old.grid ≡ cube side }
    requires empty { field.old.rows ≡ [] }
    ensures rows { OnOk result
        (field.new ≡ record field.old { rows = map (station_row state.old side) stations }) }
    ensures state { OnOk result (state.new ≡ state_after state.old 24) }
{
    let times = times_over(alloc, side)?;
    for _station in 0..STATIONS {
        let x = draw_below(state, side);
        let y = draw_below(state, side);
        let row = row_from(alloc, side, field.grid(), &times, x, y)?;
        field.push_row(row)?;
    }
    Ok(())
}

/// The travel times over all distances in a cube, by their squares.
fn times_over(alloc: Global, side: u32) -> Result<Vec<u32>, AllocError>
    requires some { 1 ≤ side }
    requires few { side ≤ 64 }
    ensures times { IfOk result (λ times. times.items ≡ times_over side) }
    ensures limit { IfOk result (λ times. All (λ time. time ≤ GREATEST_TIME) times.items) }
{
    let squares = 3 * ((side - 1) * (side - 1)) + 1;
    let mut times = Vec::with_capacity(alloc, squares as usize)?;
    for square in 0..squares {
        times.push(time_over(square))?;
    }
    Ok(times)
}

/// The travel time over a distance in a cube, by its square.
fn time_over(square: u32) -> u32
    requires few { square ≤ 11907 }
    ensures time { result ≡ time_over square }
    ensures limit { result ≤ GREATEST_TIME }
{
    ceil_root(28_900_000_000 * u64::from(square)) as u32
}

/// The travel times from a place at the surface of a cube to all its nodes.
fn row_from(
    alloc: Global,
    side: u32,
    grid: &Grid,
    times: &[u32],
    x: u32,
    y: u32,
) -> Result<Vec<u32>, AllocError>
    requires few { side ≤ 64 }
    requires cube { grid.now ≡ cube side }
    requires times { times.now ≡ times_over side }
    requires limit { All (λ time. time ≤ GREATEST_TIME) times.now }
    requires x { x < side }
    requires y { y < side }
    ensures times { IfOk result (λ row.
        row.items ≡ map (time_from grid.now (x, y, 0)) (all_nodes (node_count grid.now))) }
    ensures limit { IfOk result (λ row. All (λ time. time ≤ GREATEST_TIME) row.items) }
{
    let nodes = grid.nodes();
    let mut row = Vec::with_capacity(alloc, nodes as usize)?;
    for node in 0..nodes {
        let square = squared_distance(side, x, y, grid.place(node));
        row.push(times[square as usize])?;
    }
    Ok(row)
}

/// The square of the distance of a place at the surface of a cube and a place in it.
fn squared_distance(side: u32, x: u32, y: u32, place: (u32, u32, u32)) -> u32
    requires few { side ≤ 64 }
    requires x { x < side }
    requires y { y < side }
    requires place_x { place.0 < side }
    requires place_y { place.1 < side }
    requires place_z { place.2 < side }
    ensures value { result ≡ squared_distance (x, y, 0) place }
    ensures limit { result ≤ greatest_square side }
{
    let dx = x.abs_diff(place.0);
    let dy = y.abs_diff(place.1);
    dx * dx + dy * dy + place.2 * place.2
}

/// A node at a place that three draws give.
fn draw_node(state: &mut u64, grid: &Grid) -> u32
    ensures node { let place = place_drawn grid.now state.old in
        result ≡ node_number grid.now place.0 place.1 place.2 }
    ensures below { result < node_count grid.now }
    ensures state { state.new ≡ state_after state.old 3 }
{
    let x = draw_below(state, grid.x());
    let y = draw_below(state, grid.y());
    let z = draw_below(state, grid.z());
    grid.node_number(x, y, z)
}

/// A pick of each station, with a noise that one draw gives.
fn draw_picks(
    alloc: Global,
    state: &mut u64,
    side: u32,
    field: &Field,
    source: u32,
) -> Result<Vec<ProblemPick>, AllocError>
    requires some { 1 ≤ side }
    requires few { side ≤ 64 }
    requires rows { length field.now.rows ≡ 12 }
    requires source { source < node_count field.now.grid }
    ensures picks { IfOk result (λ picks.
        picks.items ≡ map (pick_from field.now source side state.old) stations) }
    ensures early { IfOk result (λ picks. All (IsEarlyPick field.now) picks.items) }
{
    let mut picks = Vec::with_capacity(alloc, STATIONS as usize)?;
    for row in 0..STATIONS {
        let noise = draw_below(state, 1000 * (side - 1) + 1);
        picks.push(ProblemPick {
            time: i64::from(field.time(row, source) + noise),
            weight: 1000,
            variance: 20_000_000_000,
            row,
        })?;
    }
    Ok(picks)
}
