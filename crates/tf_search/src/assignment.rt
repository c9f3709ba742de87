//! The potentials of a no-wait flow shop: those of a cheapest assignment of jobs to the jobs after
//! them (Kuhn 1955), by shortest augmenting paths (Jonker and Volgenant 1987). Nothing is promised
//! of them: the judge computes what they bound.
ghost use Rattle.std.specs.Prelude.{length, ◌≤◌, IsTrue};
ghost use Rattle.tf_model.specs.ClassTable.{is_flow_env};

use std::alloc::Allocator;
use tf_bound::potentials::{start_delay, takes_potentials};
use tf_bound::task::ProblemTask;
use tf_model::ids::JobId;
use tf_model::memory::OutOfMemory;

// The most jobs, since the search takes the cube of their number.
const MOST_ASSIGNED: usize = 400;

// The cost of what may not be assigned.
const NEVER: i64 = 1_000_000_000_000_000_000;

// The costs of a tour: row by row what it costs to go from one to each other. The first row and
// column are for the start and the end of the tour, and each other one for a job.
#[derive(Drop)]
struct Costs<A: Allocator> {
    side: usize,
    costs: Vec<i64, A>,
}

impl<A: Allocator> Costs<A> {
    // The cost of a place, both counted from 1.
    fn at(&self, row: usize, column: usize) -> i64 {
        let before = row.saturating_sub(1).saturating_mul(self.side);
        let place = before.saturating_add(column.saturating_sub(1));
        if place < self.costs.len() {
            self.costs[place]
        } else {
            NEVER
        }
    }
}

// A column: its potential, the row that is assigned to it or 0, what the cheapest path to it costs,
// from which column that comes, and whether it is reached.
#[derive(Clone, Copy)]
struct Column {
    potential: i64,
    row: usize,
    cost: i64,
    from: usize,
    reached: bool,
}

const NO_COLUMN: Column = Column {
    potential: 0,
    row: 0,
    cost: 0,
    from: 0,
    reached: false,
};

/// The potentials of a task, where it is a no-wait flow shop without too many jobs.
pub(crate) fn potentials<A: Allocator + Copy, B: Allocator>(
    alloc: A,
    task: &ProblemTask<B>,
) -> Result<Option<Vec<i64, A>>, OutOfMemory> {
    if !takes_potentials(task) || task.len() > MOST_ASSIGNED {
        return Ok(None);
    }
    let costs = costs_of(alloc, task)?;
    let mut rows = vec![in alloc; 0_i64; task.len() + 2]?;
    let mut columns = vec![in alloc; NO_COLUMN; task.len() + 2]?;
    for row in 1..rows.len() {
        assign(&costs, row, &mut rows, &mut columns);
    }
    Ok(Some(numbers_of(alloc, &rows, &columns)?))
}

// What it costs to go from one to another: the start of all is 0, and so is the end.
fn cost_between<B: Allocator>(task: &ProblemTask<B>, from: usize, to: usize) -> i64
    requires flow { IsTrue (is_flow_env task.now.problem.env) }
    requires from { from ≤ length task.now.jobs }
    requires to { to ≤ length task.now.jobs }
{
    if from == to || task.len() > MOST_ASSIGNED {
        NEVER
    } else if from == 0 {
        task.release(JobId::at(to - 1)) as i64
    } else if to == 0 {
        let job = JobId::at(from - 1);
        task.work(job) as i64 - task.due(job)
    } else {
        let delay = start_delay(task, JobId::at(from - 1), JobId::at(to - 1));
        i64::try_from(delay).unwrap_or(NEVER)
    }
}

// Adds the costs of a row.
fn push_row<A: Allocator, B: Allocator>(
    costs: &mut Vec<i64, A>,
    task: &ProblemTask<B>,
    from: usize,
) -> Result<(), OutOfMemory>
    requires flow { IsTrue (is_flow_env task.now.problem.env) }
    requires from { from ≤ length task.now.jobs }
{
    for to in 0..task.len() + 1 {
        costs.push(cost_between(task, from, to))?;
    }
    Ok(())
}

fn costs_of<A: Allocator, B: Allocator>(
    alloc: A,
    task: &ProblemTask<B>,
) -> Result<Costs<A>, OutOfMemory>
    requires flow { IsTrue (is_flow_env task.now.problem.env) }
{
    let side = task.len() + 1;
    let mut costs = Vec::new(alloc);
    for from in 0..side {
        push_row(&mut costs, task, from)?;
    }
    Ok(Costs { side, costs })
}

// Assigns one row more, along the cheapest path to a column that has none.
fn assign<A: Allocator>(costs: &Costs<A>, row: usize, rows: &mut [i64], columns: &mut [Column]) {
    begin(columns, row);
    let mut column = 0;
    for _ in 0..columns.len() {
        let least = reach(costs, column, rows, columns);
        column = next_column(columns);
        shift(rows, columns, least);
        if column >= columns.len() || columns[column].row == 0 {
            break;
        }
    }
    turn(columns, column);
}

// Before a path nothing is reached, and the row stands at column 0.
fn begin(columns: &mut [Column], row: usize) {
    for place in 0..columns.len() {
        columns[place] = Column {
            row: if place == 0 { row } else { columns[place].row },
            cost: i64::MAX,
            from: 0,
            reached: false,
            potential: columns[place].potential,
        };
    }
}

// Reaches a column, looks from its row at the others, and returns what the cheapest costs.
fn reach<A: Allocator>(
    costs: &Costs<A>,
    column: usize,
    rows: &[i64],
    columns: &mut [Column],
) -> i64 {
    if column >= columns.len() {
        return 0;
    }
    let row = columns[column].row;
    columns[column] = Column {
        reached: true,
        ..columns[column]
    };
    let own = if row < rows.len() { rows[row] } else { 0 };
    let mut least = i64::MAX;
    for place in 1..columns.len() {
        let it = columns[place];
        if !it.reached {
            let cost = costs.at(row, place).saturating_sub(own);
            let cost = cost.saturating_sub(it.potential);
            if cost < it.cost {
                columns[place] = Column {
                    cost,
                    from: column,
                    ..it
                };
            }
            least = least.min(cost.min(it.cost));
        }
    }
    least
}

// The column that is not reached and costs least.
fn next_column(columns: &[Column]) -> usize {
    let mut next = 0;
    let mut least = i64::MAX;
    for place in 1..columns.len() {
        let it = columns[place];
        if !it.reached && it.cost < least {
            least = it.cost;
            next = place;
        }
    }
    next
}

// Moves the potentials of what is reached by what the next column costs.
fn shift(rows: &mut [i64], columns: &mut [Column], least: i64) {
    for place in 0..columns.len() {
        let it = columns[place];
        if it.reached {
            if it.row < rows.len() {
                rows[it.row] = rows[it.row].saturating_add(least);
            }
            columns[place] = Column {
                potential: it.potential.saturating_sub(least),
                ..it
            };
        } else {
            columns[place] = Column {
                cost: it.cost.saturating_sub(least),
                ..it
            };
        }
    }
}

// Assigns the rows along the path that ends at a column.
fn turn(columns: &mut [Column], last: usize) {
    let mut column = last;
    for _ in 0..columns.len() {
        if column == 0 || column >= columns.len() {
            return;
        }
        let from = columns[column].from;
        if from >= columns.len() {
            return;
        }
        columns[column] = Column {
            row: columns[from].row,
            ..columns[column]
        };
        column = from;
    }
}

// The number for the end, and then for each job those of its row and of its column. The potentials
// of the rows are taken less that of the first, and those of the columns more.
fn numbers_of<A: Allocator>(
    alloc: A,
    rows: &[i64],
    columns: &[Column],
) -> Result<Vec<i64, A>, OutOfMemory> {
    let mut numbers = Vec::new(alloc);
    if rows.len() < 2 || columns.len() < 2 {
        return Ok(numbers);
    }
    let first = rows[1];
    numbers.push(first.saturating_add(columns[1].potential))?;
    for place in 2..rows.len().min(columns.len()) {
        numbers.push(rows[place].saturating_sub(first))?;
        numbers.push(columns[place].potential.saturating_add(first))?;
    }
    Ok(numbers)
}
