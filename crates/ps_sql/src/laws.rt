//! What the queries of a text may speak of.

ghost use Rattle.ps_sql.specs.Asking.{DataQueriesAskNobody, ParameterQueriesNameNoBucket};

/// A law: no request function stands in what is read as a data query, and no parameter of a bucket in what is read as a
/// parameter query.
pub fn queries_speak_as_they_may()
    ensures data { DataQueriesAskNobody }
    ensures parameter { ParameterQueriesNameNoBucket }
{}
