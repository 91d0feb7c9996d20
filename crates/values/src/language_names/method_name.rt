//! Keeps the name of a method with the methods that it names.
ghost use Rattle.std.specs.Prelude.{◌≡◌};
ghost use Rattle.values.specs.language_names.MethodNames.{object_methods_named, value_methods_named};
ghost use Rattle.values.specs.language_names.ObjectMethods.{build_target_method_named, compiler_method_named, configuration_method_named};
ghost use Rattle.values.specs.language_names.ObjectMethods.{custom_target_method_named, dependency_method_named, feature_method_named};
ghost use Rattle.values.specs.language_names.ObjectMethods.{machine_method_named, meson_method_named, output_method_named};
ghost use Rattle.values.specs.language_names.ObjectMethods.{program_method_named};
ghost use Rattle.values.specs.language_names.ValueMethods.{boolean_method_named, dictionary_method_named, integer_method_named};
ghost use Rattle.values.specs.language_names.ValueMethods.{list_method_named, text_method_named};

use crate::Text;
use crate::language_names::object_methods::{
    CompilerMethod, ConfigurationMethod, DependencyMethod, FeatureMethod, MachineMethod,
    MesonMethod, ProgramMethod, TargetMethod,
};
use crate::language_names::value_methods::{
    BooleanMethod, DictionaryMethod, IntegerMethod, ListMethod, TextMethod,
};
use std::marker::Model;

// The methods of values with one name.
#[derive(Clone, Copy)]
struct ValueMethods {
    boolean: Option<BooleanMethod>,
    integer: Option<IntegerMethod>,
    text: Option<TextMethod>,
    list: Option<ListMethod>,
    dictionary: Option<DictionaryMethod>,
}

// The methods of objects with one name.
#[derive(Clone, Copy)]
struct ObjectMethods {
    compiler: Option<CompilerMethod>,
    configuration: Option<ConfigurationMethod>,
    dependency: Option<DependencyMethod>,
    feature: Option<FeatureMethod>,
    machine: Option<MachineMethod>,
    meson: Option<MesonMethod>,
    program: Option<ProgramMethod>,
    build_target: Option<TargetMethod>,
    custom_target: Option<TargetMethod>,
    output: Option<TargetMethod>,
}

// The methods with one name, for each type of receiver.
#[derive(Clone, Copy)]
struct Methods {
    values: ValueMethods,
    objects: ObjectMethods,
}

impl ValueMethods {
    fn from_name(name: &str) -> ValueMethods
        ensures { result ≡ value_methods_named name.now }
    {
        ValueMethods {
            boolean: BooleanMethod::from_name(name),
            integer: IntegerMethod::from_name(name),
            text: TextMethod::from_name(name),
            list: ListMethod::from_name(name),
            dictionary: DictionaryMethod::from_name(name),
        }
    }
}

impl ObjectMethods {
    fn from_name(name: &str) -> ObjectMethods
        ensures { result ≡ object_methods_named name.now }
    {
        ObjectMethods {
            compiler: CompilerMethod::from_name(name),
            configuration: ConfigurationMethod::from_name(name),
            dependency: DependencyMethod::from_name(name),
            feature: FeatureMethod::from_name(name),
            machine: MachineMethod::from_name(name),
            meson: MesonMethod::from_name(name),
            program: ProgramMethod::from_name(name),
            build_target: TargetMethod::build_named(name),
            custom_target: TargetMethod::custom_named(name),
            output: TargetMethod::output_named(name),
        }
    }
}

/// Holds the name by which a definition file calls a method. The method for each type of receiver is looked up once, when the name is made.
/// The view of a name is its text alone.
#[derive(Drop)]
pub struct MethodName {
    text: Text,
    methods: Methods,
}

impl Model for MethodName {
    ghost use Rattle.std.specs.Prelude.{◌≡◌, List, ℕ};
    ghost use Rattle.values.specs.language_names.MethodNames.{methods_named};

    ghost Value = { List ℕ };

    ghost view = { λ n. n.text };

    ghost invariant = { λ n. n.methods ≡ methods_named n.text };
}

impl MethodName {
    /// Returns the name with this text.
    pub fn new(text: Text) -> MethodName
        ensures { result ≡ text }
    {
        let values = ValueMethods::from_name(text.as_str());
        let objects = ObjectMethods::from_name(text.as_str());
        let methods = Methods { values, objects };
        MethodName { text, methods }
    }

    /// Returns the name's text.
    pub fn as_str(&self) -> &str
        ensures { result.now ≡ self.now }
    {
        self.text.as_str()
    }

    /// Returns the method of a boolean with this name, and `None` if there is none.
    pub fn of_boolean(&self) -> Option<BooleanMethod>
        ensures { result ≡ boolean_method_named self.now }
    {
        self.methods.values.boolean
    }

    /// Returns the method of an integer with this name, and `None` if there is none.
    pub fn of_integer(&self) -> Option<IntegerMethod>
        ensures { result ≡ integer_method_named self.now }
    {
        self.methods.values.integer
    }

    /// Returns the method of a text with this name, and `None` if there is none.
    pub fn of_text(&self) -> Option<TextMethod>
        ensures { result ≡ text_method_named self.now }
    {
        self.methods.values.text
    }

    /// Returns the method of a list with this name, and `None` if there is none.
    pub fn of_list(&self) -> Option<ListMethod>
        ensures { result ≡ list_method_named self.now }
    {
        self.methods.values.list
    }

    /// Returns the method of a dictionary with this name, and `None` if there is none.
    pub fn of_dictionary(&self) -> Option<DictionaryMethod>
        ensures { result ≡ dictionary_method_named self.now }
    {
        self.methods.values.dictionary
    }

    /// Returns the method of a compiler with this name, and `None` if there is none.
    pub fn of_compiler(&self) -> Option<CompilerMethod>
        ensures { result ≡ compiler_method_named self.now }
    {
        self.methods.objects.compiler
    }

    /// Returns the method of a configuration data object with this name, and `None` if there is none.
    pub fn of_configuration(&self) -> Option<ConfigurationMethod>
        ensures { result ≡ configuration_method_named self.now }
    {
        self.methods.objects.configuration
    }

    /// Returns the method of a dependency with this name, and `None` if there is none.
    pub fn of_dependency(&self) -> Option<DependencyMethod>
        ensures { result ≡ dependency_method_named self.now }
    {
        self.methods.objects.dependency
    }

    /// Returns the method of a feature with this name, and `None` if there is none.
    pub fn of_feature(&self) -> Option<FeatureMethod>
        ensures { result ≡ feature_method_named self.now }
    {
        self.methods.objects.feature
    }

    /// Returns the method of a machine with this name, and `None` if there is none.
    pub fn of_machine(&self) -> Option<MachineMethod>
        ensures { result ≡ machine_method_named self.now }
    {
        self.methods.objects.machine
    }

    /// Returns the method of `meson` with this name, and `None` if there is none.
    pub fn of_meson(&self) -> Option<MesonMethod>
        ensures { result ≡ meson_method_named self.now }
    {
        self.methods.objects.meson
    }

    /// Returns the method of a program with this name, and `None` if there is none.
    pub fn of_program(&self) -> Option<ProgramMethod>
        ensures { result ≡ program_method_named self.now }
    {
        self.methods.objects.program
    }

    /// Returns the method of an executable or a library with this name, and `None` if there is none.
    pub fn of_build_target(&self) -> Option<TargetMethod>
        ensures { result ≡ build_target_method_named self.now }
    {
        self.methods.objects.build_target
    }

    /// Returns the method of a custom target with this name, and `None` if there is none.
    pub fn of_custom_target(&self) -> Option<TargetMethod>
        ensures { result ≡ custom_target_method_named self.now }
    {
        self.methods.objects.custom_target
    }

    /// Returns the method of an output of a custom target with this name, and `None` if there is none.
    pub fn of_output(&self) -> Option<TargetMethod>
        ensures { result ≡ output_method_named self.now }
    {
        self.methods.objects.output
    }
}
