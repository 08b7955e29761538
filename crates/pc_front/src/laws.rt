//! Laws of the module of bytes. Each function states one and does nothing.

ghost use Rattle.pc_front.specs.Bytes.{OneModuleOfBytes, ModuleOrRefusal, OneRefusalOfBytes, RefusalsOfBytesWithin};
ghost use Rattle.pc_front.specs.Bytes.{EveryTextIsAnswered};

/// Bytes spell at most one module.
pub fn one_module_of_bytes()
    ensures { OneModuleOfBytes }
{}

/// Bytes that spell a module have no refusal.
pub fn module_or_refusal()
    ensures { ModuleOrRefusal }
{}

/// Bytes that spell no module have a refusal: it cannot be that bytes have neither. So with the laws beside this one,
/// all bytes have exactly one answer, their module or their refusal.
pub fn every_text_is_answered()
    ensures { EveryTextIsAnswered }
{}

/// Bytes have at most one refusal.
pub fn one_refusal_of_bytes()
    ensures { OneRefusalOfBytes }
{}

/// The refusal of bytes is at a byte from 0 to their length.
pub fn refusals_of_bytes_within()
    ensures { RefusalsOfBytesWithin }
{}
