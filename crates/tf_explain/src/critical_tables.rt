//! A critical path for LaTeX: its operations and the others in tables.
use crate::critical::{Critical, IS_LEAST, OTHERS, PATH, Step, push_length, push_reason};
use std::alloc::AllocError;
use tf_advice::page::Page;
use tf_bound::task::ProblemTask;
use tf_schedule::piece::Piece;
use tf_trace::board::{Board, Style};
use tf_trace::table::Cell;

/// Adds the path, its length and the other operations, for LaTeX.
pub(crate) fn push_tables(
    page: &mut Page,
    task: &ProblemTask,
    found: &Critical,
) -> Result<(), AllocError> {
    let mut board = Board::new(page.alloc, Style::Latex);
    board.say(PATH)?;
    show_path(&mut board, &found.path)?;
    push_length(&mut board.text, task, found)?;
    board.end_sentence()?;
    if found.is_tight() {
        board.say(IS_LEAST)?;
    }
    if !found.others.is_empty() {
        board.say(OTHERS)?;
        show_others(&mut board, &found.others)?;
    }
    page.text.push_str(board.into_page().as_str())
}

fn show_path(board: &mut Board, path: &[Step]) -> Result<(), AllocError> {
    let headings = ["job", "machine", "from", "to", "why no earlier"];
    board.table.begin_ragged(&headings)?;
    let mut reason = String::new(board.alloc);
    for (place, step) in path.iter().enumerate() {
        reason.clear();
        push_reason(&mut reason, step)?;
        let [job, machine, start, stop] = cells_of(&step.operation);
        let cells = [job, machine, start, stop, Cell::Words(reason.as_str())];
        board.row(place, path.len(), &cells)?;
    }
    board.show()
}

fn show_others(board: &mut Board, others: &[(Piece, i64)]) -> Result<(), AllocError> {
    let headings = ["job", "machine", "from", "to", "later by"];
    board.table.begin(&headings)?;
    for (place, (operation, slack)) in others.iter().enumerate() {
        let [job, machine, start, stop] = cells_of(operation);
        let cells = [job, machine, start, stop, Cell::Number(i128::from(*slack))];
        board.row(place, others.len(), &cells)?;
    }
    board.show()
}

// The job, the machine, the start and the stop of an operation.
fn cells_of<'a>(operation: &Piece) -> [Cell<'a>; 4] {
    [
        Cell::Number(i128::from(operation.job.get())),
        Cell::Number(i128::from(operation.machine.get())),
        Cell::Number(i128::from(operation.start)),
        Cell::Number(i128::from(operation.stop)),
    ]
}
