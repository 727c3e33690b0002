// The calls that were made, those that fail, and how often calls failed.
ghost use Rattle.file_model.specs.Causes.{FileCause, SayCause};
ghost use Rattle.bare_host.specs.Counts.{faults_of};

use file_model::Failed;

/// How often calls failed, and how many bytes were read. A count at its last value stays there.
#[derive(Drop)]
pub(crate) struct Counts {
    pub(crate) file: u64,
    pub(crate) hear: u64,
    pub(crate) say: u64,
    pub(crate) read: u64,
}

/// How many calls were made, and the numbers of those that fail.
#[derive(Drop)]
pub(crate) struct Calls {
    pub(crate) made: u64,
    pub(crate) fails: Vec<u64>,
}

impl Calls {
    /// Counts a call, and tells whether it is none of those that fail.
    pub(crate) fn begin(&mut self) -> bool {
        let number = self.made;
        self.made = number.saturating_add(1);
        !self.fails.contains(&number)
    }
}

impl Counts {
    pub(crate) fn new() -> Counts {
        Counts {
            file: 0,
            hear: 0,
            say: 0,
            read: 0,
        }
    }

    /// What a call that changes the files answers.
    pub(crate) fn end_change(&mut self, done: bool) -> Result<(), Failed>
        ensures cause { FileCause (faults_of self.old) (faults_of self.new) result }
    {
        if done {
            return Ok(());
        }
        self.file = self.file.saturating_add(1);
        Err(Failed)
    }

    /// What a call on the output answers.
    pub(crate) fn end_say(&mut self, done: bool) -> Result<(), Failed>
        ensures cause { SayCause (faults_of self.old) (faults_of self.new) result }
    {
        if done {
            return Ok(());
        }
        self.say = self.say.saturating_add(1);
        Err(Failed)
    }
}
