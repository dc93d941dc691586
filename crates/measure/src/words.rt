//! What the words ask for.
ghost use Rattle.std.specs.Prelude.{◌<◌, ◌≤◌};

/// How many threads, 1 to 64, take how many turns each.
#[derive(Clone, Copy)]
pub struct Crew {
    pub threads: u32,
    pub turns: u32,
    ghost some: { 0 < threads },
    ghost most: { threads ≤ 64 },
}

#[derive(Clone, Copy)]
pub enum Task {
    Small { crew: Crew },
    Edits { times: u64 },
    Deltas { pairs: u64 },
    Source,
    Turns { crew: Crew },
}

/// None where the words, the program's own name first, are in none of the forms.
pub fn task_of(words: &[String]) -> Option<Task> {
    match words {
        [] | [_] => Some(Task::Small {
            crew: Crew {
                threads: 2,
                turns: 100,
            },
        }),
        [_, task, times] if task.as_str() == "edits" => edits_of(times.as_str()),
        [_, task, pairs] if task.as_str() == "deltas" => deltas_of(pairs.as_str()),
        [_, task] if task.as_str() == "source" => Some(Task::Source),
        [_, task, threads, turns] if task.as_str() == "turns" => {
            turns_of(threads.as_str(), turns.as_str())
        }
        _ => None,
    }
}

fn edits_of(times: &str) -> Option<Task> {
    match times.parse() {
        Ok(times) => Some(Task::Edits { times }),
        Err(_) => None,
    }
}

fn deltas_of(pairs: &str) -> Option<Task> {
    match pairs.parse() {
        Ok(pairs) => Some(Task::Deltas { pairs }),
        Err(_) => None,
    }
}

fn turns_of(threads: &str, turns: &str) -> Option<Task> {
    let (Ok(threads), Ok(turns)) = (threads.parse(), turns.parse()) else {
        return None;
    };
    if threads < 1 || 64 < threads {
        return None;
    }
    Some(Task::Turns {
        crew: Crew { threads, turns },
    })
}
