// What is said of words that are wrong.
use crate::{DevOption, WordsFault};
use std::alloc::{AllocError, Global};

/// The sentence on what is wrong with the words, with its LF.
pub fn fault_text(alloc: Global, fault: &WordsFault) -> Result<String, AllocError> {
    match fault {
        WordsFault::Unknown { word, nearest } => {
            let nearest = nearest.as_str();
            format!(in alloc; "{word} is no option of dev; the nearest is {nearest}\n")
        }
        WordsFault::Twice(option) => {
            let option = option.as_str();
            format!(in alloc; "{option} stands twice\n")
        }
        WordsFault::NoValue(option) => {
            let (option, value) = (option.as_str(), value_str(*option));
            format!(in alloc; "{option} takes {value}\n")
        }
        WordsFault::Valued(option) => {
            let option = option.as_str();
            format!(in alloc; "{option} takes no value\n")
        }
        WordsFault::BadNumber { option, word } => {
            let (option, value) = (option.as_str(), value_str(*option));
            format!(in alloc; "{option} takes {value}, and not '{word}'\n")
        }
        WordsFault::NoFolder => format!(in alloc; "no folder was named\n"),
        WordsFault::BadRoot(word) => {
            format!(in alloc;
                "'{word}' is no name of a module: one begins with a slash, as /main.js\n"
            )
        }
        WordsFault::RootTwice => format!(in alloc; "a root stands twice\n"),
        WordsFault::TooManyRoots => format!(in alloc; "there are more than 16 roots\n"),
        WordsFault::NoMemory => format!(in alloc; "there is no memory\n"),
    }
}

// What an option takes.
fn value_str(option: DevOption) -> &'static str {
    match option {
        DevOption::Port => "a number from 0 to 65535",
        DevOption::Workers => "a number from 1 to 16",
        DevOption::Record => "the name of a file",
        DevOption::StrictPort | DevOption::Json | DevOption::Help => "no value",
    }
}
