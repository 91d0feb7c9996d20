//! Lists the functions and methods of the page "Reference manual" with their names, and the names that no definition file may assign.
//!
//! A call's name is looked up once, when its file is turned into code. A [`FunctionName`] and a [`MethodName`] keep the functions or
//! methods that they name next to their text, and the invariants of these types say that both agree. So code that runs a call compares no
//! names, and its contract is still about the name alone.

mod functions;
mod method_name;
mod names;
mod object_methods;
mod rows;
mod value_methods;

pub use functions::{Function, FunctionName, ProjectFunction};
pub use method_name::MethodName;
pub use names::{is_left_out, is_predefined, is_variable_name, predefined_value};
pub use object_methods::{
    CompilerMethod, ConfigurationMethod, DependencyMethod, FeatureMethod, MachineMethod,
    MesonMethod, ProgramMethod, TargetMethod,
};
pub use value_methods::{BooleanMethod, DictionaryMethod, IntegerMethod, ListMethod, TextMethod};
