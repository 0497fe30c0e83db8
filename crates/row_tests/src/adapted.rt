//! A module that takes adapters one after another over the types of a block. The steps of a line are parted by ` ; `. A step is an adapter
//! that is asked for: its name, the export of an instance that is its callee, the numbers of the function types of its sides, the lift side
//! first, those of their instances, the number of their core type, and `marked` where it is transparent; it is answered by `taken`, or by
//! why it is refused. Or it is `page`: the bytes of the module so far, whether it is built as they say, and its imports, each with its copy.
//! Behind the steps stand the numbers of the adapters that are marked.

ghost use Rattle.std.specs.Prelude.{◌<◌, length, IfOk};

use fact_entity::{AdapterId, EntityRef};
use fact_module::{
    Adapter, AdapterOptionsDfg, ComponentDfg, CoreDef, FuseError, Import, Module,
    RuntimeComponentInstanceIndex, RuntimeInstanceIndex, StringEncoding, Tunables, WasmFeatures,
};
use fact_plan_types::PlanTypes;
use fact_types::{ModuleInternedTypeIndex, TypeFuncIndex};
use fact_wasm::Text;
use line_tests::{end_module, is_spelled, small_number_of, word_of};
use std::alloc::{AllocError, Global};

/// A side without options.
fn side(instance: &str, core_type: &str) -> AdapterOptionsDfg {
    AdapterOptionsDfg {
        instance: RuntimeComponentInstanceIndex::from_u32(small_number_of(instance)),
        string_encoding: StringEncoding::Utf8,
        memory: None,
        realloc: None,
        callback: None,
        post_return: None,
        async_: false,
        core_type: ModuleInternedTypeIndex::from_u32(small_number_of(core_type)),
    }
}

/// The adapter of a callee and of numbers.
fn adapter_of(alloc: Global, words: &str) -> Result<Adapter, AllocError> {
    let (callee, numbers) = word_of(words);
    let name = Text::from_str(alloc, callee)?;
    let (lift, numbers) = word_of(numbers);
    let (lower, numbers) = word_of(numbers);
    let (lift_instance, numbers) = word_of(numbers);
    let (lower_instance, core_type) = word_of(numbers);
    let (core_type, _) = word_of(core_type);
    Ok(Adapter {
        lift_ty: TypeFuncIndex::from_u32(small_number_of(lift)),
        lift_options: side(lift_instance, core_type),
        lower_ty: TypeFuncIndex::from_u32(small_number_of(lower)),
        lower_options: side(lower_instance, core_type),
        func: CoreDef::Export {
            instance: RuntimeInstanceIndex::from_u32(0),
            name,
        },
    })
}

/// Adds an adapter to a component, and answers its id.
fn put(
    component: &mut ComponentDfg,
    adapter: Adapter,
    is_marked: bool,
) -> Result<AdapterId, AllocError>
    ensures { IfOk result (λ id. id.number < length component.new.adapters) }
{
    match component.add(adapter, is_marked) {
        Ok(id) => Ok(id),
        Err(_) => Err(AllocError),
    }
}

/// Adds the adapter of a callee and of numbers to a component, and answers its id.
fn put_words(
    alloc: Global,
    component: &mut ComponentDfg,
    words: &str,
) -> Result<AdapterId, AllocError>
    ensures { IfOk result (λ id. id.number < length component.new.adapters) }
{
    let adapter = adapter_of(alloc, words)?;
    put(component, adapter, words.ends_with("marked"))
}

/// What takes adapters. What a module promises of its calls is not asked for here.
trait Taker {
    /// Takes an adapter of a component, or says why it is refused.
    fn take(&mut self, name: &str, component: &ComponentDfg, id: AdapterId) -> Result<(), FuseError>
        requires { id.number < length component.now.adapters };

    /// The bytes so far.
    fn bytes(&mut self) -> Result<Vec<u8>, AllocError>;

    /// Whether what is built has these bytes.
    fn is_built(&mut self, alloc: Global, bytes: &[u8]) -> Result<bool, AllocError>;

    /// The imports so far.
    fn told_imports(&self) -> &[Import];
}

impl Taker for Module<'_> {
    fn take(
        &mut self,
        name: &str,
        component: &ComponentDfg,
        id: AdapterId,
    ) -> Result<(), FuseError> {
        self.adapt(name, component, id)
    }

    fn bytes(&mut self) -> Result<Vec<u8>, AllocError> {
        match self.encode() {
            Ok(bytes) => Ok(bytes),
            Err(_) => Err(AllocError),
        }
    }

    fn is_built(&mut self, alloc: Global, bytes: &[u8]) -> Result<bool, AllocError> {
        let Ok(module) = self.build() else {
            return Err(AllocError);
        };
        let is = is_spelled(alloc, &module, bytes);
        end_module(Some(module));
        is
    }

    fn told_imports(&self) -> &[Import] {
        self.imports()
    }
}

/// Adds what a module says.
fn add_answer(page: &mut String, answer: Result<(), FuseError>) -> Result<(), AllocError> {
    match answer {
        Ok(()) => page.push_str("taken"),
        Err(FuseError::OutOfMemory) => Err(AllocError),
        Err(refusal) => write!(page, "{refusal}"),
    }
}

/// Adds imports, each with its copy.
fn add_imports(page: &mut String, imports: &[Import]) -> Result<(), AllocError> {
    for import in imports {
        let copy = import.try_clone()?;
        let added = write!(page, " {import:?} = {copy:?}");
        drop(copy);
        added?;
    }
    Ok(())
}

/// Adds bytes in hex.
fn add_hex(page: &mut String, alloc: Global, bytes: &[u8]) -> Result<(), AllocError> {
    let digits = hex::encode(alloc, bytes)?;
    page.push_str(digits.as_str())
}

/// Adds the bytes of a module, whether it is built as they say, and its imports.
fn add_told(
    page: &mut String,
    alloc: Global,
    bytes: &[u8],
    is_built: bool,
    imports: &[Import],
) -> Result<(), AllocError> {
    add_hex(page, alloc, bytes)?;
    page.push_str(if is_built {
        " is built,"
    } else {
        " is not built,"
    })?;
    add_imports(page, imports)
}

/// Adds the page of a module.
fn add_page<T: Taker>(page: &mut String, alloc: Global, made: &mut T) -> Result<(), AllocError> {
    let bytes = made.bytes()?;
    let built = made.is_built(alloc, bytes.as_slice());
    let added = match built {
        Ok(is) => add_told(page, alloc, bytes.as_slice(), is, made.told_imports()),
        Err(error) => Err(error),
    };
    drop(bytes);
    added
}

/// Adds what comes of steps.
fn add_steps<T: Taker>(
    page: &mut String,
    alloc: Global,
    made: &mut T,
    component: &mut ComponentDfg,
    steps: &str,
) -> Result<(), AllocError> {
    for step in steps.split(" ; ") {
        if step == "page" {
            add_page(page, alloc, made)?;
        } else {
            let (name, words) = word_of(step);
            let id = put_words(alloc, component, words)?;
            add_answer(page, made.take(name, component, id))?;
        }
        page.push_str(" ; ")?;
    }
    Ok(())
}

/// Adds the numbers of the adapters that are marked.
fn add_marked(page: &mut String, marked: &[AdapterId]) -> Result<(), AllocError> {
    page.push_str("marked")?;
    for id in marked {
        write!(page, " {}", id.as_u32())?;
    }
    Ok(())
}

/// Adds what comes of the steps of a line.
pub fn add_adapted(
    page: &mut String,
    alloc: Global,
    types: &PlanTypes,
    steps: &str,
) -> Result<(), AllocError> {
    let tunables = Tunables {
        concurrency_support: false,
        debug_adapter_modules: false,
        fuel: 1,
    };
    let features = WasmFeatures { exceptions: false };
    let mut module = Module::new(alloc, &types.builder, &tunables, features);
    let mut component = ComponentDfg::new(alloc);
    let added = add_steps(page, alloc, &mut module, &mut component, steps);
    drop(module);
    let marked = add_marked(page, component.transparent_adapters.as_slice());
    drop(component);
    added?;
    marked
}
