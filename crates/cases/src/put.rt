//! One question and its answer, printed.
use logic::evaluate;
use logic::line::Line;
use model::game::Game;
use refusal::Numbered;
use sets::state_set::StateSet;

/// Prints the question's title, then the states where it holds as `at: 0 1 5`, or the number of its refusal.
pub(crate) fn ask<G: Game>(
    rt: &HostRuntime,
    g: &G,
    title: &str,
    lines: &[Line],
) -> anyhow::Result<()> {
    println!(rt; "{title}")?;
    let mut sets = [StateSet::empty(); 16];
    match evaluate(g, lines, &mut sets) {
        Ok(answer) => at(rt, answer),
        Err(fault) => {
            println!(rt; "refused {}", fault.number())?;
            Ok(())
        }
    }
}

/// Prints the questions with their titles, one after another.
pub(crate) fn ask_all<G: Game>(
    rt: &HostRuntime,
    g: &G,
    questions: &[(&str, &[Line])],
) -> anyhow::Result<()> {
    for (title, lines) in questions {
        ask(rt, g, title, lines)?;
    }
    Ok(())
}

/// Prints the states of a set after `at:`.
fn at(rt: &HostRuntime, states: StateSet) -> anyhow::Result<()> {
    print!(rt; "at:")?;
    for s in (0..64).filter(|s| states.contains(*s)) {
        print!(rt; " {s}")?;
    }
    println!(rt; "")?;
    Ok(())
}
