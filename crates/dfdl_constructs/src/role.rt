// What an element of a schema document can stand for.

/// What an annotation belongs to.
#[derive(Debug, Clone, Copy, PartialEq, Eq)]
pub enum AnnotationPoint {
    Schema,
    Element,
    SimpleType,
    Sequence,
    Choice,
    GroupReference,
    /// A construct that takes no annotations of DFDL's.
    Other,
}

/// What an element of a schema document stands for.
#[derive(Debug, Clone, Copy, PartialEq, Eq)]
pub enum Role {
    Schema,
    Include,
    Import,
    GlobalElement,
    LocalElement,
    ElementReference,
    GlobalComplexType,
    LocalComplexType,
    GlobalSimpleType,
    LocalSimpleType,
    Restriction,
    MinLength,
    MaxLength,
    /// A facet other than these two.
    Facet,
    GlobalGroup,
    GroupReference,
    Sequence,
    Choice,
    Annotation(AnnotationPoint),
    /// Documentation, or an `appinfo` of another source than DFDL's.
    Information,
    /// The `appinfo` that holds annotations of DFDL's.
    Annotations(AnnotationPoint),
    /// The `format` of a schema.
    DefaultFormat,
    DefineFormat,
    /// The `format` in its definition.
    DefinedFormat,
    DefineEscapeScheme,
    EscapeScheme,
    DefineVariable,
    /// The annotation element with the properties of its component.
    ComponentProperties,
    /// A property in element form.
    Property,
    Assert,
    Discriminator,
    SetVariable,
    NewVariableInstance,
    /// A construct that is not of the subset.
    OutsideSubset,
    /// An annotation that isn't known where it stands.
    UnknownAnnotation,
    /// An element inside of what isn't looked at.
    Skipped,
}
