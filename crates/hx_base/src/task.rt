//! The tasks of an import, and the files that they leave.
ghost use Rattle.std.specs.Prelude.{◌≡◌};
ghost use Rattle.hx_base.specs.Tasks.{file_of};

use crate::refusal::JobFile;

/// A task of an import.
#[derive(Clone, Copy, Debug, PartialEq, Eq)]
pub struct Task {
    /// Its kind, from 1 to 8: map, plan, split, reduce, margin split, margin reduce, lists, properties.
    pub kind: u8,
    /// The input of a map or split, the partition of a reduce, margin split or margin reduce, and of the kind `lists` one
    /// of 0, 1 and 2.
    pub number: u32,
}

impl Task {
    /// The file that the task leaves; None exactly where no import has such a task.
    pub fn file(self) -> Option<JobFile>
        ensures { result ≡ file_of self }
    {
        let number = self.number;
        match self.kind {
            1 => Some(JobFile::Map(number)),
            2 if number == 0 => Some(JobFile::Plan),
            3 => Some(JobFile::Split(number)),
            4 => Some(JobFile::Part(number)),
            5 => Some(JobFile::MarginSplit(number)),
            6 => Some(JobFile::Margin(number)),
            7 if number == 0 => Some(JobFile::List),
            7 if number == 1 => Some(JobFile::MarginList),
            7 if number == 2 => Some(JobFile::MarginProperties),
            8 if number == 0 => Some(JobFile::Properties),
            _ => None,
        }
    }
}

#[cfg(test)]
mod tests {
    use super::*;

    #[test]
    fn files_of_tasks(rt: HostRuntime) {
        let cases = [
            (1, 5, Some(JobFile::Map(5))),
            (2, 0, Some(JobFile::Plan)),
            (2, 1, None),
            (3, 5, Some(JobFile::Split(5))),
            (4, 7, Some(JobFile::Part(7))),
            (5, 7, Some(JobFile::MarginSplit(7))),
            (6, 7, Some(JobFile::Margin(7))),
            (7, 0, Some(JobFile::List)),
            (7, 1, Some(JobFile::MarginList)),
            (7, 2, Some(JobFile::MarginProperties)),
            (7, 3, None),
            (8, 0, Some(JobFile::Properties)),
            (8, 1, None),
            (0, 0, None),
            (9, 0, None),
        ];
        for (kind, number, file) in cases {
            let task = Task { kind, number };
            assert_eq!(rt; task.file(), file, "{task:?}");
        }
    }
}
