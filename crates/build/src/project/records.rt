//! Holds what a project keeps for the introspection document: dependencies, installed files and tests.

/// Holds the result of a call of `dependency`.
#[derive(Drop)]
pub struct Answer {
    /// The name that was found, or else the first name.
    pub name: String,
    pub version: String,
    pub is_found: bool,
}

/// Holds a file that is installed.
#[derive(Drop)]
pub struct Install {
    /// An absolute path.
    pub source: String,
    pub destination: String,
}

/// Holds what `test` declares.
pub struct Test {
    pub name: String,
    /// The words of the command, with files and targets as absolute paths.
    pub command: Vec<String>,
    /// Texts of the form `K=V`.
    pub environment: Vec<String>,
    pub suites: Vec<String>,
    pub should_fail: bool,
    /// In seconds.
    pub timeout: i64,
}

impl Drop for Test {
    fn drop(self) {
        let Test {
            name: _,
            command: _,
            environment: _,
            suites: _,
            should_fail: _,
            timeout: _,
        } = self;
    }
}
