//! Laws of fields.

ghost use Rattle.report_parts.specs.Fields.{AscendingFieldsStandInOrder, NamesOfObjectsAscend};

/// A law: if names ascend, the object of fields has them in the order of the list.
pub fn ascending_fields_stand_in_order()
    ensures { AscendingFieldsStandInOrder }
{}

/// A law: the names of an object ascend in byte order, whatever the order of the fields.
pub fn names_of_objects_ascend()
    ensures { NamesOfObjectsAscend }
{}
