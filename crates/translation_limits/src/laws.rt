// The form of the queries of closed stylesheets.
ghost use Rattle.translation_limits.specs.Closed.{ClosedKeepLimits};

/// Where the parts of a stylesheet are good and may stand where they do, all expressions of its query
/// are regular and nest at most 400 levels.
pub fn closed_stylesheets_have_queries_within_the_limits()
    ensures { ClosedKeepLimits }
{}
