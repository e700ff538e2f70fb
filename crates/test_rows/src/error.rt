use pbx_content::SchemaError;
use pbx_wire::NoMemory;

/// Why a text is no shape.
#[derive(Clone, Copy, Debug, PartialEq, Eq)]
pub enum ShapeTextError {
    /// A word stands for nothing, or the shape is not proper.
    NoShape,
    /// Memory ran out.
    NoMemory,
}

impl From<NoMemory> for ShapeTextError {
    fn from(_refused: NoMemory) -> ShapeTextError {
        ShapeTextError::NoMemory
    }
}

impl From<SchemaError> for ShapeTextError {
    fn from(refused: SchemaError) -> ShapeTextError {
        match refused {
            SchemaError::Improper(_) => ShapeTextError::NoShape,
            SchemaError::NoMemory(_) => ShapeTextError::NoMemory,
        }
    }
}
